/// A record: its letter and its fields, in the bytes of its package.
#[derive(Clone, Copy)]
pub struct Entry<'a> {
    pub letter: u8,
    pub fields: &'a [u8],
}
