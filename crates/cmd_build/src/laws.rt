//! What holds of the definitions, each law as the contract of a function that does nothing.
ghost use Rattle.std.specs.Prelude.{◌≡◌, ◌+◌, ◌^◌, ◌<◌, ◌≤◌, ℕ, max, List, length, Option, None};
ghost use Rattle.bson_doc.specs.Documents.{depth_of};
ghost use Rattle.bson_doc.specs.declared.cluster_time.ClusterTime.{ClusterTime};
ghost use Rattle.bson_wire.specs.Spelled.{spelled};
ghost use Rattle.cmd_build.specs.Commands.{command_document};
ghost use Rattle.cmd_build.specs.Sizes.{IsWithin, excess, levels_of_time};
ghost use Rattle.cmd_build.specs.declared.command.Command.{Command};
ghost use Rattle.cmd_build.specs.declared.extras.Extras.{Extras};
ghost use Rattle.cmd_build.specs.declared.extras.Sizes.{Sizes};

/// A command's document has at most three levels more than the deepest document that the command carries, or one more than
/// its cluster time, or the four of a read preference.
pub fn levels()
    ensures { (levels : ℕ) (c : Command) (db : List ℕ) (extras : Extras) (time : Option ClusterTime) → IsWithin levels c.act → depth_of (command_document c db extras time) ≤ max 4 (max (levels + 3) (levels_of_time time + 1)) }
{}

/// Where nothing of a command is too large, its message has no more bytes than the server takes.
pub fn a_message_fits()
    ensures { (c : Command) (db : List ℕ) (extras : Extras) (time : Option ClusterTime) (sizes : Sizes) → sizes.max_message < 2 ^ 32 → excess c db extras time sizes ≡ None → length (spelled (command_document c db extras time)) + 21 ≤ sizes.max_message }
{}
