ghost use Rattle.std.specs.Prelude.{◌≡◌, find};
ghost use Rattle.bson_doc.specs.Documents.{is_text};
ghost use Rattle.conn_uri.specs.Options.{name_of};

/// The options of a connection string (URI Options).
#[derive(Clone, Copy, Debug, PartialEq, Eq)]
pub(crate) enum UriOption {
    ReplicaSet,
    DirectConnection,
    RetryWrites,
    ConnectTimeoutMs,
    SocketTimeoutMs,
    ServerSelectionTimeoutMs,
    WaitQueueTimeoutMs,
    HeartbeatFrequencyMs,
    LocalThresholdMs,
    MaxIdleTimeMs,
    MaxPoolSize,
    MaxConnecting,
    ReadPreference,
    ReadPreferenceTags,
    Tls,
    Ssl,
    LoadBalanced,
    Compressors,
    AuthMechanism,
    W,
    Journal,
}

/// The options.
const OPTIONS: [UriOption; 21] = [
    UriOption::ReplicaSet,
    UriOption::DirectConnection,
    UriOption::RetryWrites,
    UriOption::ConnectTimeoutMs,
    UriOption::SocketTimeoutMs,
    UriOption::ServerSelectionTimeoutMs,
    UriOption::WaitQueueTimeoutMs,
    UriOption::HeartbeatFrequencyMs,
    UriOption::LocalThresholdMs,
    UriOption::MaxIdleTimeMs,
    UriOption::MaxPoolSize,
    UriOption::MaxConnecting,
    UriOption::ReadPreference,
    UriOption::ReadPreferenceTags,
    UriOption::Tls,
    UriOption::Ssl,
    UriOption::LoadBalanced,
    UriOption::Compressors,
    UriOption::AuthMechanism,
    UriOption::W,
    UriOption::Journal,
];

impl UriOption {
    ghost use Rattle.conn_uri.specs.Options.{name_of, option_named};

    /// The option's name in lower case.
    #[tactic(auto, unfolding(crate::specs::Options::name_of))]
    pub(crate) fn name(self) -> &'static str
        ensures { result.now ≡ name_of self }
    {
        match self {
            UriOption::ReplicaSet => "replicaset",
            UriOption::DirectConnection => "directconnection",
            UriOption::RetryWrites => "retrywrites",
            UriOption::ConnectTimeoutMs => "connecttimeoutms",
            UriOption::SocketTimeoutMs => "sockettimeoutms",
            UriOption::ServerSelectionTimeoutMs => "serverselectiontimeoutms",
            UriOption::WaitQueueTimeoutMs => "waitqueuetimeoutms",
            UriOption::HeartbeatFrequencyMs => "heartbeatfrequencyms",
            UriOption::LocalThresholdMs => "localthresholdms",
            UriOption::MaxIdleTimeMs => "maxidletimems",
            UriOption::MaxPoolSize => "maxpoolsize",
            UriOption::MaxConnecting => "maxconnecting",
            UriOption::ReadPreference => "readpreference",
            UriOption::ReadPreferenceTags => "readpreferencetags",
            UriOption::Tls => "tls",
            UriOption::Ssl => "ssl",
            UriOption::LoadBalanced => "loadbalanced",
            UriOption::Compressors => "compressors",
            UriOption::AuthMechanism => "authmechanism",
            UriOption::W => "w",
            UriOption::Journal => "journal",
        }
    }

    /// The option of that name, which is in lower case; none where no option has it.
    pub(crate) fn from_name(name: &str) -> Option<UriOption>
        ensures { result ≡ option_named name.now }
    {
        named(name, &OPTIONS)
    }
}

/// The first of the options that has the name.
fn named(name: &str, options: &[UriOption]) -> Option<UriOption>
    ensures { result ≡ find (λ o. is_text (name_of o) name.now) options.now }
{
    for option in options {
        if option.name() == name {
            return Some(*option);
        }
    }
    None
}
