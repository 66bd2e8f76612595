ghost use Rattle.std.specs.Prelude.{◌≡◌, ◌+◌, ◌<◌, ◌≤◌, length};
ghost use Rattle.buffer.specs.Appends.{Appends, HasRoom};

/// A buffer that the caller lends, and how many bytes of it are written.
#[derive(Drop)]
pub struct Output<'a> {
    pub buffer: &'a mut [u8],
    pub len: usize,
}

impl Output<'_> {
    /// Writes bytes after those that are written, for which there is room.
    fn append(&mut self, bytes: &[u8])
        requires { HasRoom self.old (length bytes.now) }
        ensures { Appends self.old bytes.now self.new }
    {
        let to = self.len + bytes.len();
        self.buffer[self.len..to].copy_from_slice(bytes);
        self.len = to;
    }

    /// Writes bytes after those that are written. Where there is no room for them, all stays.
    pub fn put(&mut self, bytes: &[u8])
        ensures wrote { HasRoom self.old (length bytes.now) → Appends self.old bytes.now self.new }
        ensures stays { length self.old.buffer.now < self.old.len + length bytes.now → self.new ≡ self.old }
    {
        if self.buffer.len() < self.len || self.buffer.len() - self.len < bytes.len() {
            return;
        }
        self.append(bytes);
    }
}
