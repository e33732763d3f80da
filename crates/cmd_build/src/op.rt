ghost use Rattle.std.specs.Prelude.{◌≡◌, find};
ghost use Rattle.bson_doc.specs.Documents.{is_text};
ghost use Rattle.bson_doc.specs.Names.{HasNoZero};
ghost use Rattle.cmd_build.specs.Ops.{op_name};

/// Which command an act is (MongoDB, database commands).
#[derive(Clone, Copy, Debug, PartialEq, Eq)]
pub enum Op {
    /// Adds a document.
    Insert,
    /// Changes documents.
    Update,
    /// Removes documents.
    Delete,
    /// Changes or removes one document, and answers it.
    FindAndModify,
    /// Reads one document.
    Find,
}

/// The commands, in the order of the standard's CRUD operations.
const OPS: [Op; 5] = [
    Op::Insert,
    Op::Update,
    Op::Delete,
    Op::FindAndModify,
    Op::Find,
];

impl Op {
    ghost use Rattle.bson_doc.specs.Names.{HasNoZero};
    ghost use Rattle.cmd_build.specs.Ops.{op_name, op_named};

    /// The command's name: the first field of its document.
    pub fn name(self) -> &'static str
        ensures value { result.now ≡ op_name self }
        ensures no_zero { HasNoZero result.now }
    {
        match self {
            Op::Insert => "insert",
            Op::Update => "update",
            Op::Delete => "delete",
            Op::FindAndModify => "findAndModify",
            Op::Find => "find",
        }
    }

    /// The command of that name, byte by byte; none where no command here has it.
    pub fn from_name(name: &str) -> Option<Op>
        ensures op { result ≡ op_named name.now }
    {
        named(name, &OPS)
    }
}

/// The first of the commands that has the name.
fn named(name: &str, ops: &[Op]) -> Option<Op>
    ensures { result ≡ find (λ op. is_text (op_name op) name.now) ops.now }
{
    for op in ops {
        if op.name() == name {
            return Some(*op);
        }
    }
    None
}
