//! The bytes of a script, from its source.

ghost use Rattle.std.specs.Prelude.{◌≡◌, Err, OnErr, IfOk, IfErr, List, ℕ};
ghost use Rattle.net_link.specs.Causes.{HasCause};
ghost use Rattle.script_text.specs.Taken.{Takes, IsWhole, IsCut};

use crate::ScriptRead;
use net_link::{Source, SourceCame};
use std::alloc::Global;

/// The most bytes of a script.
pub const MOST_BYTES: usize = 16_777_216;

/// The most bytes that are taken: with one more, a script is known to be too long.
const MOST_TAKEN: usize = MOST_BYTES + 1;

/// How much one read asks for at most.
const PIECE: usize = 4096;

/// All bytes of the source, or its first 16,777,217.
pub fn take_text<S: Source>(alloc: Global, source: &mut S) -> Result<Vec<u8>, ScriptRead>
    ensures taken { IfOk result (λ v. Takes S.tells (S.left source.old) (S.left source.new) v.items) }
    ensures whole { IfOk result (λ v. S.tells → IsWhole v.items (S.left source.new)) }
    ensures lost { OnErr result ((bytes : List ℕ) × Takes S.tells (S.left source.old) (S.left source.new) bytes) }
    ensures stop { IfErr result IsCut }
    ensures cause { HasCause (S.faults source.old) (S.faults source.new) (result ≡ Err ScriptRead.ReadFault) }
{
    let mut bytes = Vec::new(alloc);
    let mut piece = [0; PIECE];
    'pieces: while bytes.len() < MOST_TAKEN {
        let want = (MOST_TAKEN - bytes.len()).min(PIECE);
        match source.read(&mut piece[..want]) {
            SourceCame::Got(count) => {
                let Ok(()) = bytes.extend_from_slice(&piece[..count]) else {
                    return Err(ScriptRead::Memory);
                };
            }
            SourceCame::End => return Ok(bytes),
            SourceCame::Failed => return Err(ScriptRead::ReadFault),
        }
    }
    Ok(bytes)
}
