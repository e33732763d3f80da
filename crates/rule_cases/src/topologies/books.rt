use crate::topologies::changes::change_text;
use crate::topologies::events::event;
use crate::topologies::values::version_text;
use case_files::{CaseFault, Words};
use std::alloc::Global;
use topo_book::{Taken, TopoBook};

/// What the book answers the offer of an event, with its host's pool's generation `pool=N`.
pub fn offer(
    alloc: Global,
    book: &mut TopoBook,
    words: &mut Words<'_>,
) -> Result<Taken, CaseFault> {
    let verb = words.next_as("event")?;
    let event = event(alloc, verb, words)?;
    let pool = words.number(alloc, "pool")?.unwrap_or(0);
    words.end(alloc)?;
    Ok(book.offer(alloc, event, pool)?)
}

/// The fact of the answer, or of the events that were accepted, that has this name.
pub fn answer_fact(
    alloc: Global,
    book: &TopoBook,
    taken: &Taken,
    name: &str,
) -> Result<Option<String>, CaseFault> {
    match name {
        "answer" => Ok(Some(answer_text(alloc, taken)?)),
        "accepted" => {
            let count = book.accepted().len();
            Ok(Some(format!(in alloc; "accepted {count}")?))
        }
        _ => match taken {
            Taken::Accepted(change) if name == "change" => Ok(Some(change_text(alloc, change)?)),
            Taken::StaleVersion { kept, .. } if name == "kept" => {
                let kept = version_text(alloc, kept)?;
                Ok(Some(format!(in alloc; "kept {}", kept.as_str())?))
            }
            Taken::StaleVersion { came, .. } if name == "came" => {
                let came = version_text(alloc, came)?;
                Ok(Some(format!(in alloc; "came {}", came.as_str())?))
            }
            _ => Ok(None),
        },
    }
}

/// `answer accepted`, `answer gone`, `answer version`, or `answer generation KEPT CAME`.
fn answer_text(alloc: Global, taken: &Taken) -> Result<String, CaseFault> {
    let text = match taken {
        Taken::Accepted(_) => String::from_str(alloc, "answer accepted")?,
        Taken::Gone => String::from_str(alloc, "answer gone")?,
        Taken::StaleVersion { .. } => String::from_str(alloc, "answer version")?,
        Taken::StaleGeneration { kept, came } => {
            format!(in alloc; "answer generation {kept} {came}")?
        }
    };
    Ok(text)
}
