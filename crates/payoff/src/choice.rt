ghost use Rattle.std.specs.Prelude.{◌≡◌};
ghost use Rattle.payoff.specs.Instruments.{choice};
ghost use Rattle.std.proofs.Common.{rules};

use crate::figures::Figures;
use crate::instrument::Instrument;
use crate::letters::LetterSet;
use crate::payment::Payment;
use crate::tested::TestedTables;
use rows::Holding;

/// One of two instruments, by the holding's letter: the first whose set has it.
#[derive(Clone, Copy)]
pub struct Choice<A, B> {
    pub first: A,
    pub first_letters: LetterSet,
    pub second: B,
    pub second_letters: LetterSet,
}

// figures and payment differ in the call that they make, which no parameter can stand for: each is a method of a type
impl<L: Instrument, R: Instrument> Instrument for Choice<L, R> {
    ghost means = { λ i t h. choice (L.Instrument.means i.first) i.first_letters (R.Instrument.means i.second) i.second_letters t h };

    ghost rules = { Prim.search rules };

    fn figures(&self, hour: &TestedTables, holding: &Holding) -> Option<Figures> {
        if self.first_letters.has(holding.instrument) {
            return self.first.figures(hour, holding);
        }
        if self.second_letters.has(holding.instrument) {
            return self.second.figures(hour, holding);
        }
        None
    }

    fn payment(&self, hour: &TestedTables, holding: &Holding) -> Option<Payment> {
        if self.first_letters.has(holding.instrument) {
            return self.first.payment(hour, holding);
        }
        if self.second_letters.has(holding.instrument) {
            return self.second.payment(hour, holding);
        }
        None
    }
}
