ghost use Rattle.std.specs.Prelude.{◌≡◌, Some};
ghost use Rattle.month_settlement.specs.declared.month_error.MonthError.TheVariants.{Refused, OutOfMemory};
ghost use Rattle.month_settlement.specs.Errors.{error_text};

use refusals::Refusal;
use std::alloc::AllocError;
use std::error::Error;
use std::fmt;

/// Why a month is not settled: a call refuses the whole month, or memory fails.
#[derive(Clone, Copy, Debug, PartialEq, Eq)]
pub enum MonthError {
    Refused(Refusal),
    OutOfMemory,
}

impl From<Refusal> for MonthError {
    ghost from_gives = { λ refusal e. e ≡ Refused refusal };

    fn from(refusal: Refusal) -> MonthError {
        MonthError::Refused(refusal)
    }
}

impl From<AllocError> for MonthError {
    ghost from_gives = { λ _ e. e ≡ OutOfMemory };

    fn from(_: AllocError) -> MonthError {
        MonthError::OutOfMemory
    }
}

/// Why the month was not settled, in words.
impl fmt::Display for MonthError {
    ghost output = { λ e. Some (error_text e) };

    fn fmt<W: fmt::Write>(&self, f: &mut fmt::Formatter<W>) -> fmt::Result {
        match self {
            Self::Refused(why) => write!(f, "the month is {why}"),
            Self::OutOfMemory => f.write_str("out of memory"),
        }
    }
}

impl Error for MonthError {}
