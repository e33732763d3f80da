ghost use Rattle.std.specs.Prelude.{◌≡◌};

use crate::column::Column;
use std::fmt;

/// The fields of a hello reply that a description is read from (SDAM, Parsing a hello response), in the order in which
/// faults are sought.
#[derive(Clone, Copy, Debug, PartialEq, Eq)]
pub enum FieldName {
    /// `setName`, the replica set's name: a string.
    SetName,
    /// `setVersion`, the version of the set's configuration: a whole number.
    SetVersion,
    /// `electionId`, the primary's election: an ObjectId.
    ElectionId,
    /// `primary`, the member that this one takes for the primary: a host.
    Primary,
    /// `me`, the server's own name in the set's configuration: a host.
    Me,
    /// `hosts`, members that can become primary: an array of hosts.
    Hosts,
    /// `passives`, members with priority 0: an array of hosts.
    Passives,
    /// `arbiters`: an array of hosts.
    Arbiters,
    /// `tags`, the member's tags: a document of strings.
    Tags,
    /// `minWireVersion`: a whole number of 32 bits.
    MinWireVersion,
    /// `maxWireVersion`: a whole number of 32 bits.
    MaxWireVersion,
    /// `logicalSessionTimeoutMinutes`: a whole number from 0 to 1,000,000.
    LogicalSessionTimeoutMinutes,
    /// `topologyVersion`: a document with `processId`, an ObjectId, and `counter`, an int64.
    TopologyVersion,
    /// `maxBsonObjectSize`, in bytes: a whole number from 1 to 48,000,000.
    MaxBsonObjectSize,
    /// `maxMessageSizeBytes`: a whole number from 1 to 48,000,000.
    MaxMessageSizeBytes,
    /// `maxWriteBatchSize`: a whole number from 1 to 100,000.
    MaxWriteBatchSize,
}

/// The fields, in the order in which faults are sought.
pub(crate) const FIELDS: [FieldName; 16] = [
    FieldName::SetName,
    FieldName::SetVersion,
    FieldName::ElectionId,
    FieldName::Primary,
    FieldName::Me,
    FieldName::Hosts,
    FieldName::Passives,
    FieldName::Arbiters,
    FieldName::Tags,
    FieldName::MinWireVersion,
    FieldName::MaxWireVersion,
    FieldName::LogicalSessionTimeoutMinutes,
    FieldName::TopologyVersion,
    FieldName::MaxBsonObjectSize,
    FieldName::MaxMessageSizeBytes,
    FieldName::MaxWriteBatchSize,
];

/// Any whole number.
const WHOLE: Column = Column::Whole {
    least: i64::MIN,
    most: i64::MAX,
};

/// A whole number of 32 bits.
const SHORT: Column = Column::Whole {
    least: -2_147_483_648,
    most: 2_147_483_647,
};

/// Minutes from 0 on.
const MINUTES: Column = Column::Whole {
    least: 0,
    most: 1_000_000,
};

/// A count of bytes, of which there is one at least.
const BYTES: Column = Column::Whole {
    least: 1,
    most: 48_000_000,
};

/// A count of documents, of which there is one at least.
const DOCUMENTS: Column = Column::Whole {
    least: 1,
    most: 100_000,
};

impl FieldName {
    ghost use Rattle.hello_reply.specs.Fields.{name_of, column_of};

    /// The field's name in the reply.
    pub fn name(self) -> &'static str
        ensures { result.now ≡ name_of self }
    {
        match self {
            FieldName::SetName => "setName",
            FieldName::SetVersion => "setVersion",
            FieldName::ElectionId => "electionId",
            FieldName::Primary => "primary",
            FieldName::Me => "me",
            FieldName::Hosts => "hosts",
            FieldName::Passives => "passives",
            FieldName::Arbiters => "arbiters",
            FieldName::Tags => "tags",
            FieldName::MinWireVersion => "minWireVersion",
            FieldName::MaxWireVersion => "maxWireVersion",
            FieldName::LogicalSessionTimeoutMinutes => "logicalSessionTimeoutMinutes",
            FieldName::TopologyVersion => "topologyVersion",
            FieldName::MaxBsonObjectSize => "maxBsonObjectSize",
            FieldName::MaxMessageSizeBytes => "maxMessageSizeBytes",
            FieldName::MaxWriteBatchSize => "maxWriteBatchSize",
        }
    }

    /// What the field's value must be.
    pub(crate) fn column(self) -> Column
        ensures { result ≡ column_of self }
    {
        match self {
            FieldName::SetName => Column::Text,
            FieldName::SetVersion => WHOLE,
            FieldName::ElectionId => Column::ObjectId,
            FieldName::Primary => Column::Host,
            FieldName::Me => Column::Host,
            FieldName::Hosts => Column::Hosts,
            FieldName::Passives => Column::Hosts,
            FieldName::Arbiters => Column::Hosts,
            FieldName::Tags => Column::Tags,
            FieldName::MinWireVersion => SHORT,
            FieldName::MaxWireVersion => SHORT,
            FieldName::LogicalSessionTimeoutMinutes => MINUTES,
            FieldName::TopologyVersion => Column::Version,
            FieldName::MaxBsonObjectSize => BYTES,
            FieldName::MaxMessageSizeBytes => BYTES,
            FieldName::MaxWriteBatchSize => DOCUMENTS,
        }
    }
}

impl fmt::Display for FieldName {
    ghost use Rattle.std.specs.Prelude.{Some};
    ghost use Rattle.hello_reply.specs.Fields.{name_of};

    ghost output = { λ f. Some (name_of f) };

    fn fmt<W: fmt::Write>(&self, f: &mut fmt::Formatter<W>) -> fmt::Result {
        write!(f, "{}", self.name())
    }
}
