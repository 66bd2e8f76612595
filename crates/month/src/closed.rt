ghost use Rattle.std.specs.Prelude.{◌≡◌};
ghost use Rattle.month.specs.Months.{of_closed, of_told};

use crate::state::ClosedMonth;
use crate::told::ClosedFigures;

impl ClosedMonth {
    /// Tells each figure of the month.
    pub fn figures(&self) -> ClosedFigures
        ensures { of_told result ≡ of_closed self.now }
    {
        let books = &self.books;
        ClosedFigures {
            owners: books.owners,
            hours: books.hours,
            last_hour: books.last,
            rents: books.rents,
            credits: books.credits,
            charges: books.charges,
            shortfall_charges: books.shorts,
            refunds: self.refunds,
            load_payments: self.payments,
        }
    }
}
