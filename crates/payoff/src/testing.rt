ghost use Rattle.std.specs.Prelude.{◌≡◌, Some, None, MatchResult};
ghost use Rattle.refusals.specs.Numbers.{told};
ghost use Rattle.payoff.specs.Tables.{tables_test, bad_entry};
ghost use Rattle.payoff.specs.Plain.{plain_tables};
ghost use Rattle.payoff.specs.View.{tables_of};

use crate::tables::PlainTables;
use crate::tested::TestedTables;
use refusals::{Cause, Refusal};
use rows::first_bad;

// the writer tests its tables so too, holdings besides, and does not stand on this crate
/// The first entry out of range: constraints first, then points and shift factors.
fn bad_entry(tables: &PlainTables) -> Option<usize>
    ensures { result ≡ bad_entry (plain_tables tables.now) }
{
    first_bad(tables.constraints)
        .or_else(|| first_bad(tables.points))
        .or_else(|| first_bad(tables.factors))
}

/// Tests the hour's tables once: 11 for their sizes, 18 for their first entry out of range. Answers the tables, to be
/// used as tested.
pub fn test_tables<'a>(tables: &PlainTables<'a>) -> Result<TestedTables<'a>, Refusal>
    ensures { MatchResult result (λ hour. (tables_test (plain_tables tables.now) ≡ None) × (tables_of hour ≡ plain_tables tables.now)) (λ e. tables_test (plain_tables tables.now) ≡ Some (told e)) }
{
    if tables.points.len() > 256
        || tables.constraints.len() > 32
        || tables.factors.len() != tables.points.len() * tables.constraints.len()
    {
        return Err(Cause::Sizes.at(0));
    }
    if let Some(place) = bad_entry(tables) {
        return Err(Cause::BadEntry.at(place));
    }
    Ok(TestedTables { plain: *tables })
}
