ghost use Rattle.std.specs.Prelude.{◌≡◌, find};
ghost use Rattle.bson_doc.specs.Documents.{is_text};
ghost use Rattle.script_text.specs.Members.{name_of};

use cmd_build::Op;

/// The members that a command's line may have.
#[derive(Clone, Copy, Debug, PartialEq, Eq)]
pub(crate) enum Member {
    /// `lane`, the command's lane: an integer from 1 to 64.
    Lane,
    /// `op`, what the command does.
    Op,
    /// `coll`, the collection: a text, not empty, without a zero.
    Coll,
    /// `db`, the collection's database: the same, or absent.
    Db,
    /// `doc`, the document that is added: an object.
    Doc,
    /// `filter`, which documents fit: an object.
    Filter,
    /// `change`, the change: an object.
    Change,
    /// `multi`, whether all that fit are changed: a truth value, or absent for false.
    Multi,
    /// `upsert`, whether one is added where none fits: a truth value, or absent for false.
    Upsert,
    /// `limit`, how many are removed: 0 for all, 1, or absent for 1.
    Limit,
    /// `remove`, that the document is removed: true, or absent.
    Remove,
    /// `mode`, the mode of the read preference: its name, or absent for the client's own preference.
    Mode,
    /// `tags`, the tag sets of the read preference: an array of objects of texts, or absent.
    Tags,
}

/// All members.
const MEMBERS: [Member; 13] = [
    Member::Lane,
    Member::Op,
    Member::Coll,
    Member::Db,
    Member::Doc,
    Member::Filter,
    Member::Change,
    Member::Multi,
    Member::Upsert,
    Member::Limit,
    Member::Remove,
    Member::Mode,
    Member::Tags,
];

impl Member {
    ghost use Rattle.script_text.specs.Members.{name_of, member_named, is_of};

    /// The member's name.
    pub(crate) fn name(self) -> &'static str
        ensures { result.now ≡ name_of self }
    {
        match self {
            Member::Lane => "lane",
            Member::Op => "op",
            Member::Coll => "coll",
            Member::Db => "db",
            Member::Doc => "doc",
            Member::Filter => "filter",
            Member::Change => "change",
            Member::Multi => "multi",
            Member::Upsert => "upsert",
            Member::Limit => "limit",
            Member::Remove => "remove",
            Member::Mode => "mode",
            Member::Tags => "tags",
        }
    }

    /// The member of that name, byte by byte; none where no line has such a member.
    pub(crate) fn from_name(name: &str) -> Option<Member>
        ensures { result ≡ member_named name.now }
    {
        named(name, &MEMBERS)
    }

    /// Whether the line of such a command may have the member.
    pub(crate) fn is_of(self, op: Op) -> bool
        ensures { result ≡ is_of op self }
    {
        match self {
            Member::Lane | Member::Op | Member::Coll | Member::Db => true,
            Member::Doc => matches!(op, Op::Insert),
            Member::Filter => !matches!(op, Op::Insert),
            Member::Change => matches!(op, Op::Update | Op::FindAndModify),
            Member::Multi | Member::Upsert => matches!(op, Op::Update),
            Member::Limit => matches!(op, Op::Delete),
            Member::Remove => matches!(op, Op::FindAndModify),
            Member::Mode | Member::Tags => matches!(op, Op::Find),
        }
    }
}

/// The first of the members that has the name.
fn named(name: &str, members: &[Member]) -> Option<Member>
    ensures { result ≡ find (λ m. is_text (name_of m) name.now) members.now }
{
    for member in members {
        if member.name() == name {
            return Some(*member);
        }
    }
    None
}
