ghost use Rattle.std.specs.Prelude.{◌≡◌, ◌+◌, ◌^◌, ◌<◌, length};

/// A place in a package: the bytes from the next record on, and that record's number. The bytes are the caller's own,
/// and several readers may stand at different records of them.
#[derive(Clone, Copy)]
pub struct Reader<'a> {
    pub(crate) rest: &'a [u8],
    pub(crate) place: usize,
    ghost short: { length rest.now + place < 2 ^ 64 },
}

impl Reader<'_> {
    /// The number of the record that comes next.
    pub fn place(&self) -> usize
        ensures { result ≡ self.now.place }
    {
        self.place
    }
}
