ghost use Rattle.std.specs.Prelude.{◌≡◌, IfOk};
ghost use Rattle.conn_uri.specs.Configurations.{defaults as default_choices, plain_configuration, preference_of, AreSeeds, IsConfiguration};

use crate::copies::{copy_hosts, copy_text, copy_texts};
use crate::{Memory, defaults};
use bson_doc::{Rows, Text};
use host_name::Host;
use read_pref::{Mode, ReadPref};
use std::alloc::Global;
use std::marker::Model;

/// A client's configuration (Connection String; URI Options). Times are in milliseconds, at most 2,147,483,647.
#[derive(Debug, Drop)]
pub struct Settings {
    /// The seeds: 1 to 16,777,216 hosts that differ (Connection String, Host Information).
    pub hosts: Rows<Host>,
    /// `replicaSet`: the name of the set that servers must be of.
    pub set_name: Option<Text>,
    /// `directConnection`: the one host is talked to whatever it is.
    pub direct: bool,
    /// The database of commands that name none (Connection String, defaultauthdb).
    pub db: Text,
    /// `readPreference` and `readPreferenceTags`.
    pub read: ReadPref,
    /// `retryWrites`: whether writes are sent again after a failed attempt.
    pub retry_writes: bool,
    /// `connectTimeoutMS`; 2,147,483,647 stands for no limit.
    pub connect_ms: u64,
    /// `socketTimeoutMS`; 2,147,483,647 stands for no limit.
    pub socket_ms: u64,
    /// `serverSelectionTimeoutMS`, at least 1.
    pub select_ms: u64,
    /// `heartbeatFrequencyMS`, at least 500.
    pub beat_ms: u64,
    /// `localThresholdMS`.
    pub threshold_ms: u64,
    /// `waitQueueTimeoutMS`, at least 1.
    pub wait_ms: u64,
    /// `maxIdleTimeMS`; 0 is no limit.
    pub idle_ms: u64,
    /// `maxPoolSize`, at least 1; 2,147,483,647 stands for no limit.
    pub max_pool: u32,
    /// `maxConnecting`, at least 1.
    pub max_connecting: u32,
    /// The names, in lower case, of the options that were ignored, in order.
    pub warnings: Rows<Text>,
}

impl Model for Settings {
    ghost use Rattle.conn_uri.specs.Configurations.{Configuration, IsConfiguration};

    ghost Value = { Configuration };

    ghost view = { λ s. record {
      hosts = s.hosts;
      set_name = s.set_name;
      direct = s.direct;
      db = s.db;
      read = s.read;
      retry_writes = s.retry_writes;
      connect_ms = s.connect_ms;
      socket_ms = s.socket_ms;
      select_ms = s.select_ms;
      beat_ms = s.beat_ms;
      threshold_ms = s.threshold_ms;
      wait_ms = s.wait_ms;
      idle_ms = s.idle_ms;
      max_pool = s.max_pool;
      max_connecting = s.max_connecting;
      warnings = s.warnings;
    } };

    ghost invariant = { λ s. IsConfiguration (record {
      hosts = s.hosts;
      set_name = s.set_name;
      direct = s.direct;
      db = s.db;
      read = s.read;
      retry_writes = s.retry_writes;
      connect_ms = s.connect_ms;
      socket_ms = s.socket_ms;
      select_ms = s.select_ms;
      beat_ms = s.beat_ms;
      threshold_ms = s.threshold_ms;
      wait_ms = s.wait_ms;
      idle_ms = s.idle_ms;
      max_pool = s.max_pool;
      max_connecting = s.max_connecting;
      warnings = s.warnings;
    }) };
}

impl Settings {
    /// The settings of these seeds, this set's name and this database, with each option at its default and without
    /// warnings. The seeds are 1 to 16,777,216 hosts that differ. It takes no memory.
    pub fn plain(alloc: Global, hosts: Rows<Host>, set_name: Option<Text>, db: Text) -> Settings
        requires { AreSeeds hosts }
        ensures { result ≡ plain_configuration hosts set_name db }
    {
        Settings {
            hosts,
            set_name,
            direct: defaults::DIRECT_CONNECTION,
            db,
            read: primary(alloc),
            retry_writes: defaults::RETRY_WRITES,
            connect_ms: defaults::CONNECT_TIMEOUT_MS,
            socket_ms: defaults::SOCKET_TIMEOUT_MS,
            select_ms: defaults::SERVER_SELECTION_TIMEOUT_MS,
            beat_ms: defaults::HEARTBEAT_FREQUENCY_MS,
            threshold_ms: defaults::LOCAL_THRESHOLD_MS,
            wait_ms: defaults::WAIT_QUEUE_TIMEOUT_MS,
            idle_ms: defaults::MAX_IDLE_TIME_MS,
            max_pool: defaults::MAX_POOL_SIZE,
            max_connecting: defaults::MAX_CONNECTING,
            warnings: Rows::new(alloc),
        }
    }

    /// Equal settings.
    pub fn copy(&self, alloc: Global) -> Result<Settings, Memory>
        ensures value { IfOk result (λ s. s ≡ self.now) }
        ensures kept { IsConfiguration self.now }
    {
        Ok(Settings {
            hosts: copy_hosts(alloc, self.hosts.as_slice())?,
            set_name: copy_text(alloc, self.set_name.as_ref())?,
            direct: self.direct,
            db: self.db.copy(alloc)?,
            read: self.read.copy(alloc)?,
            retry_writes: self.retry_writes,
            connect_ms: self.connect_ms,
            socket_ms: self.socket_ms,
            select_ms: self.select_ms,
            beat_ms: self.beat_ms,
            threshold_ms: self.threshold_ms,
            wait_ms: self.wait_ms,
            idle_ms: self.idle_ms,
            max_pool: self.max_pool,
            max_connecting: self.max_connecting,
            warnings: copy_texts(alloc, self.warnings.as_slice())?,
        })
    }
}

/// The read preference of mode primary without tags.
fn primary(alloc: Global) -> ReadPref
    ensures { result ≡ preference_of default_choices }
{
    match ReadPref::new(Mode::Primary, Rows::new(alloc)) {
        Ok(read) => read,
        Err(_) => unreachable!(),
    }
}
