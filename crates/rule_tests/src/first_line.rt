//! A command's line in a report.
ghost use Rattle.std.specs.Prelude.{◌≡◌, IfOk};
ghost use Rattle.report_text.specs.Lines.{line};

use bson_doc::{Memory, Rows, Text};
use host_name::Host;
use report_text::line;
use std::alloc::Global;
use write_retry::Outcome;

/// The line of the first command, where it took one attempt.
pub fn first_line(alloc: Global, outcome: &Outcome, names: &Rows<Host>) -> Result<Text, Memory>
    ensures { IfOk result (λ text. text ≡ line names.now 1 outcome.now 1) }
{
    line(alloc, 1, outcome, 1, names)
}
