ghost use Rattle.std.specs.Prelude.{◌+◌, ◌<◌, ◌^◌, length};

/// Text of a connection string, and the place of its first byte.
#[derive(Clone, Copy, Debug)]
pub(crate) struct Piece<'a> {
    /// The place, from 0.
    pub(crate) at: usize,
    /// The text.
    pub(crate) text: &'a str,
    ghost within: { at + length text.now < 2 ^ 64 },
}
