/// Whoever wants to know how far a month has come.
pub trait Progress {
    /// So many hours have been posted or set aside.
    fn hours_done(&mut self, hours: usize);
}
