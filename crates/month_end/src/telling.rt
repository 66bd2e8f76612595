use month_settlement::Progress;

/// Hours between two lines of progress.
const STEP: usize = 50;

/// Tells how far the month has come on standard error.
#[derive(Drop)]
pub(crate) struct ToStandardError<'a> {
    pub(crate) rt: &'a HostRuntime,
}

impl Progress for ToStandardError<'_> {
    fn hours_done(&mut self, hours: usize) {
        if hours % STEP == 0 {
            let _ = eprintln!(self.rt; "{hours} hours");
        }
    }
}
