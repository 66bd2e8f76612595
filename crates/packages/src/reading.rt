ghost use Rattle.std.specs.Prelude.{◌≡◌, length, Ok};
ghost use Rattle.refusals.specs.Numbers.{told_by};
ghost use Rattle.codec.specs.Records.{answered};
ghost use Rattle.format.specs.Hours.{Tables};
ghost use Rattle.format.specs.Reading.{reads_tables, reads_into, laid};
ghost use Rattle.format.specs.Writing.{writes};
ghost use Rattle.packages.specs.Counting.{seen_of, seen_in};

use crate::filled::Filled;
use crate::lent::LentTables;
use crate::testing::test_package;
use refusals::{Cause, Refusal};
use rows::{ConstraintRow, HoldingRow, PointRow};

// the caller lends each table by itself, so each is a parameter here
/// Reads a package into the caller's tables: answers the hour that it is of and how many entries of each table it filled,
/// or refuses by the first test that fails, and every table then stays.
pub fn read_package(
    bytes: &[u8],
    constraints: &mut [ConstraintRow],
    points: &mut [PointRow],
    factors: &mut [i16],
    holdings: &mut [HoldingRow],
) -> Result<Filled, Refusal>
    ensures answer { told_by seen_in result ≡ answered seen_of (reads_into bytes.now constraints.old points.old factors.old holdings.old) }
    ensures constraint_rows { constraints.new ≡ laid (reads_into bytes.now constraints.old points.old factors.old holdings.old) (λ t. t.constraints) constraints.old }
    ensures point_rows { points.new ≡ laid (reads_into bytes.now constraints.old points.old factors.old holdings.old) (λ t. t.points) points.old }
    ensures factor_rows { factors.new ≡ laid (reads_into bytes.now constraints.old points.old factors.old holdings.old) (λ t. t.factors) factors.old }
    ensures holding_rows { holdings.new ≡ laid (reads_into bytes.now constraints.old points.old factors.old holdings.old) (λ t. t.holdings) holdings.old }
    ensures written_so { (t : Tables) → reads_tables bytes.now ≡ Ok t → writes t (length bytes.now) ≡ Ok bytes.now }
{
    let found = test_package(bytes)?;
    let tables = LentTables {
        constraints,
        points,
        factors,
        holdings,
    };
    if !tables.have_room(&found) {
        return Err(Cause::TooShort.at(0));
    }
    tables.fill(bytes, &found);
    Ok(found)
}
