//! The lines of a text of bytes.

ghost use Rattle.std.specs.Prelude.{◌≡◌, ◌<◌, ◌+◌, ◌^◌, [], ◌∷◌, length, IfSome, option_map, Some, None, position, ◌==◌};
ghost use Rattle.script_text.specs.Lines.{lines_of, lines_behind, without_cr, line_behind};

/// The first line of a text, and what stands behind its LF, where it has one.
pub fn first_line(text: &[u8]) -> (&[u8], Option<&[u8]>)
    ensures lines { lines_of text.now ≡ result.0.now ∷ lines_behind (option_map (λ r. r.now) result.1) }
    ensures shorter { IfSome result.1 (λ r. length r.now < length text.now) }
{
    match first_feed(text) {
        Some(at) => (without_return(&text[..at]), Some(&text[at + 1..])),
        None => (text, None),
    }
}

/// Where the first LF stands.
fn first_feed(text: &[u8]) -> Option<usize>
    ensures place { result ≡ position (λ b. b == 10) text.now }
    ensures within { IfSome result (λ i. i < length text.now) }
{
    text.iter().position(|b| *b == b'\n')
}

/// The line without the CR at its end.
fn without_return(line: &[u8]) -> &[u8]
    ensures { result.now ≡ without_cr line.now }
{
    if line.is_empty() || line[line.len() - 1] != b'\r' {
        return line;
    }
    &line[..line.len() - 1]
}

/// The number of the line, from 1, on which the byte behind these stands.
pub fn line_of_end(front: &[u8]) -> u32
    requires { length front.now < 2 ^ 31 }
    ensures { result ≡ line_behind front.now }
{
    front.iter().filter(|b| **b == b'\n').count() as u32 + 1
}
