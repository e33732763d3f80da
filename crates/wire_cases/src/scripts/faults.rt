use bson_text::TextFault;
use case_files::Memory;
use script_text::{ScriptFault, ScriptKind};
use std::alloc::Global;

/// A script's fault: what is wrong, with the path to the place of a document's fault. Each script here has one line.
pub fn fault_text(alloc: Global, fault: &ScriptFault) -> Result<String, Memory> {
    match &fault.kind {
        ScriptKind::Json => String::from_str(alloc, "fault json"),
        ScriptKind::Shape => String::from_str(alloc, "fault shape"),
        ScriptKind::Lane => String::from_str(alloc, "fault lane"),
        ScriptKind::Long => String::from_str(alloc, "fault long"),
        ScriptKind::Text(text) => document_fault(alloc, text),
    }
}

fn document_fault(alloc: Global, fault: &TextFault) -> Result<String, Memory> {
    match fault {
        TextFault::Fraction { path } => format!(in alloc; "fault fraction {}", path.as_str()),
        TextFault::TooBig { path } => format!(in alloc; "fault too-big {}", path.as_str()),
        TextFault::Nul { path } => format!(in alloc; "fault nul {}", path.as_str()),
        TextFault::Deep { path } => format!(in alloc; "fault deep {}", path.as_str()),
        TextFault::Shape | TextFault::Memory => String::from_str(alloc, "fault another"),
    }
}
