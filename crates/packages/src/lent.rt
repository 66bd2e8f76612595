ghost use Rattle.std.specs.Prelude.{◌≡◌, ◌*◌, ◌++◌, true, length, drop, Ok};
ghost use Rattle.format.specs.Hours.{Tables};
ghost use Rattle.format.specs.Reading.{reads_tables};
ghost use Rattle.packages.specs.Counting.{seen_of, seen_in};
ghost use Rattle.packages.specs.Laying.{has_room};

use crate::filled::Filled;
use crate::filling::{fill, fill_rows, next_fields};
use records::Reader;
use rows::{ConstraintRow, HoldingRow, PointRow};

/// The tables that the caller lends for the rows of an hour.
#[derive(Drop)]
pub(crate) struct LentTables<'a> {
    pub(crate) constraints: &'a mut [ConstraintRow],
    pub(crate) points: &'a mut [PointRow],
    pub(crate) factors: &'a mut [i16],
    pub(crate) holdings: &'a mut [HoldingRow],
}

impl LentTables<'_> {
    /// Whether there is room for what a package has.
    pub(crate) fn have_room(&self, found: &Filled) -> bool
        ensures { result ≡ has_room self.now (seen_in found.now) }
    {
        found.constraints <= self.constraints.len()
            && found.points <= self.points.len()
            && found.factors <= self.factors.len()
            && found.holdings <= self.holdings.len()
    }

    /// Fills the front of each table with the rows of a package.
    pub(crate) fn fill(self, bytes: &[u8], found: &Filled)
        requires room { has_room self (seen_in found.now) ≡ true }
        requires factors { found.now.factors ≡ found.now.points * found.now.constraints }
        ensures { (t : Tables) → reads_tables bytes.now ≡ Ok t → seen_of t ≡ seen_in found.now → (self.exit.0.now ≡ t.constraints ++ drop (length t.constraints) self.entry.constraints.now) × (self.exit.1.0.now ≡ t.points ++ drop (length t.points) self.entry.points.now) × (self.exit.1.1.0.now ≡ t.factors ++ drop (length t.factors) self.entry.factors.now) × (self.exit.1.1.1.0.now ≡ t.holdings ++ drop (length t.holdings) self.entry.holdings.now) }
    {
        let LentTables {
            constraints,
            points,
            factors,
            holdings,
        } = self;
        let mut reader = Reader::new(bytes);
        // the package was tested, so that no record is missing
        next_fields(&mut reader);
        fill(&mut reader, &mut constraints[..found.constraints]);
        let mut rows = reader;
        fill(&mut reader, &mut points[..found.points]);
        fill_rows(
            &mut rows,
            found.points,
            found.constraints,
            &mut factors[..found.factors],
        );
        fill(&mut reader, &mut holdings[..found.holdings]);
    }
}
