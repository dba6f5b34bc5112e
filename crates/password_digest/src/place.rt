// Places of a text's encoding.
ghost use Rattle.std.specs.Prelude.{◌<◌, ◌≤◌};

// An offset of the text, and how many bytes of the character there are out.
#[derive(Clone, Copy, Debug, PartialEq, Eq)]
pub struct Place {
    pub at: usize,
    pub skip: usize,
    ghost inner: { skip < 4 },
}

// A place of the text, and how many bytes are in the block.
#[derive(Clone, Copy, Debug, PartialEq, Eq)]
pub struct Filled {
    pub place: Place,
    pub n: usize,
    ghost room: { n ≤ 64 },
}
