//! What each option is where the connection string leaves it out (URI Options, defaults).

/// `directConnection`.
pub(crate) const DIRECT_CONNECTION: bool = false;

/// `retryWrites`.
pub(crate) const RETRY_WRITES: bool = true;

/// `connectTimeoutMS`.
pub(crate) const CONNECT_TIMEOUT_MS: u64 = 10_000;

/// `socketTimeoutMS` (own: the standard has none).
pub(crate) const SOCKET_TIMEOUT_MS: u64 = 30_000;

/// `serverSelectionTimeoutMS`.
pub(crate) const SERVER_SELECTION_TIMEOUT_MS: u64 = 30_000;

/// `heartbeatFrequencyMS`.
pub(crate) const HEARTBEAT_FREQUENCY_MS: u64 = 10_000;

/// `localThresholdMS`.
pub(crate) const LOCAL_THRESHOLD_MS: u64 = 15;

/// `waitQueueTimeoutMS` (own: the standard has none).
pub(crate) const WAIT_QUEUE_TIMEOUT_MS: u64 = 30_000;

/// `maxIdleTimeMS`: 0, no limit.
pub(crate) const MAX_IDLE_TIME_MS: u64 = 0;

/// `maxPoolSize`.
pub(crate) const MAX_POOL_SIZE: u32 = 100;

/// `maxConnecting`.
pub(crate) const MAX_CONNECTING: u32 = 2;
