/// What a line of a case file is.
#[derive(Clone, Copy)]
pub enum Line<'a> {
    /// A line that says nothing.
    Nothing,
    /// A step.
    Step(&'a str),
    /// What must stand behind a step.
    Expected(&'a str),
    /// A line with another indent than two blanks, or with blanks at its end.
    Misplaced,
}

/// What the line, without its end, is.
pub fn line_of(line: &str) -> Line<'_> {
    if line.is_empty() || line.starts_with('#') {
        return Line::Nothing;
    }
    let (text, expected) = match line.strip_prefix("  ") {
        Some(text) => (text, true),
        None => (line, false),
    };
    if text.trim().len() != text.len() || text.is_empty() {
        Line::Misplaced
    } else if expected {
        Line::Expected(text)
    } else {
        Line::Step(text)
    }
}
