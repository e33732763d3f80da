ghost use Rattle.std.specs.Prelude.{◌≡◌, ◌≤◌, ◌+◌, ◌-◌};
ghost use Rattle.bson_doc.specs.wire.Limits.{most_bytes};

/// Where the elements of a document stand.
#[derive(Clone, Copy)]
pub struct Span {
    /// The place of the document's length.
    pub start: u32,
    /// The place where the bytes of its elements end.
    pub end: usize,
}

impl Span {
    /// The elements of a document of that total, whose length stands at `start`. Its last byte is kept for its 00.
    pub fn of(start: u32, total: usize) -> Span
        requires least { 5 ≤ total }
        requires small { start + total ≤ most_bytes }
        ensures start { result.start ≡ start }
        ensures end { result.end ≡ start + total - 1 }
    {
        Span {
            start,
            end: start as usize + total - 1,
        }
    }
}
