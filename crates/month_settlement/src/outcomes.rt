use ledger::{HourAnswer, RollLine};
use month::ClosedFigures;
use refusals::Refusal;

/// An hour that was posted: its number in the month, and what post answered.
#[derive(Clone, Copy)]
pub struct BookedHour {
    pub hour: u16,
    pub answer: HourAnswer,
}

/// A month that was settled: what became of each package in its turn, the roll with a line for each owner in front, and
/// every figure of the closed month.
#[derive(Drop)]
pub struct SettledMonth {
    pub hours: Vec<Result<BookedHour, Refusal>>,
    pub roll: [RollLine; 128],
    pub figures: ClosedFigures,
}
