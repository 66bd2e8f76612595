ghost use Rattle.std.specs.Prelude.{◌≡◌, IfOk, string_bytes};
ghost use Rattle.hour_text.specs.Read.{package_text};

use explanation::explain_holdings;
use format::{MOST_CONSTRAINTS, MOST_FACTORS, MOST_HOLDINGS, MOST_POINTS};
use packages::read_package;
use payoff::{Instrument, PlainTables};
use rows::{ConstraintRow, HoldingRow, PointRow};
use std::alloc::{AllocError, Global};

/// Reads a package and tells of each of its holdings every figure, or why it is refused; or why the package is.
pub fn explain_package<I: Instrument>(
    heap: Global,
    instrument: &I,
    bytes: &[u8],
) -> Result<String, AllocError>
    ensures { IfOk result (λ s. string_bytes s ≡ package_text (I.means instrument.now) bytes.now) }
{
    // tables of its own and no `HourTables`, which is copied where it is made: a small hour would cost several times as much
    let mut constraints = [ConstraintRow::default(); MOST_CONSTRAINTS];
    let mut points = [PointRow::default(); MOST_POINTS];
    let mut factors = [0i16; MOST_FACTORS];
    let mut holdings = [HoldingRow::default(); MOST_HOLDINGS];
    let read = read_package(
        bytes,
        &mut constraints,
        &mut points,
        &mut factors,
        &mut holdings,
    );
    match read {
        Ok(hour) => {
            let tables = PlainTables {
                constraints: &constraints[..hour.constraints],
                points: &points[..hour.points],
                factors: &factors[..hour.factors],
            };
            explain_holdings(heap, instrument, &tables, &holdings[..hour.holdings])
        }
        Err(refusal) => format!(in heap; "{refusal}\n"),
    }
}
