ghost use Rattle.std.specs.Prelude.{◌≡◌, ℕ, ◌<◌, length, Ok};
ghost use Rattle.refusals.specs.Numbers.{told_by};
ghost use Rattle.codec.specs.Records.{answered};
ghost use Rattle.format.specs.Hours.{Hour};
ghost use Rattle.format.specs.Reading.{admit, run};
ghost use Rattle.packages.specs.Counting.{counts, counted, count_constraint, count_point, count_holding, count_takes};

use crate::counts::Counts;
use codec::{read_point, read_row};
use format::{MOST_CONSTRAINTS, MOST_HOLDINGS, MOST_POINTS};
use records::Reader;
use refusals::{Cause, Refusal};
use rows::{ConstraintRow, HoldingRow};

/// Refuses a record that comes out of order, or one more than an hour may have.
fn admit(place: usize, in_order: bool, has_room: bool) -> Result<(), Refusal>
    ensures { told_by (λ _. place) result ≡ admit place in_order has_room (Ok place) (λ p. p) }
{
    if !in_order {
        return Err(Cause::RecordOrder.at(place));
    }
    if !has_room {
        return Err(Cause::TooManyRecords.at(place));
    }
    Ok(())
}

/// A C record, which comes before every P and H.
fn take_constraint(place: usize, seen: &mut Counts, fields: &[u8]) -> Result<(), Refusal>
    ensures { told_by (λ _. seen.new) result ≡ count_constraint place seen.old fields.now }
{
    let in_order = seen.points == 0 && seen.holdings == 0;
    admit(place, in_order, seen.constraints < MOST_CONSTRAINTS)?;
    read_row::<ConstraintRow>(fields, place)?;
    seen.constraints += 1;
    Ok(())
}

/// A P record, which comes before every H.
fn take_point(place: usize, seen: &mut Counts, fields: &[u8]) -> Result<(), Refusal>
    ensures { told_by (λ _. seen.new) result ≡ count_point place seen.old fields.now }
{
    admit(place, seen.holdings == 0, seen.points < MOST_POINTS)?;
    read_point(fields, seen.constraints, place)?;
    seen.points += 1;
    Ok(())
}

/// An H record.
fn take_holding(place: usize, seen: &mut Counts, fields: &[u8]) -> Result<(), Refusal>
    ensures { told_by (λ _. seen.new) result ≡ count_holding place seen.old fields.now }
{
    admit(place, true, seen.holdings < MOST_HOLDINGS)?;
    read_row::<HoldingRow>(fields, place)?;
    seen.holdings += 1;
    Ok(())
}

/// One record after the day row's: its letter in order, its number, its length and its figures.
fn take_record(place: usize, seen: &mut Counts, letter: u8, fields: &[u8]) -> Result<(), Refusal>
    ensures { told_by (λ _. seen.new) result ≡ count_takes place seen.old letter fields.now }
{
    match letter {
        b'C' => take_constraint(place, seen, fields),
        b'P' => take_point(place, seen, fields),
        b'H' => take_holding(place, seen, fields),
        _ => Err(Cause::RecordOrder.at(place)),
    }
}

/// The tests of every record from the reader's place on, which is that after the day row's.
pub(crate) fn test_rest<'a>(mut reader: Reader<'a>) -> Result<Counts, Refusal>
    ensures { (k : ℕ) (t : Hour) → length reader.entry.rest.now < k → counted t ≡ counts 0 0 0 → told_by (λ n. n) result ≡ answered counted (run k reader.entry.place t reader.entry.rest.now) }
{
    let mut seen = Counts {
        constraints: 0,
        points: 0,
        holdings: 0,
    };
    loop {
        // the number of a record is told before it is taken, and what comes next may be refused: so no iterator
        let place = reader.place();
        let Some(entry) = reader.next()? else {
            return Ok(seen);
        };
        take_record(place, &mut seen, entry.letter, entry.fields)?;
    }
}
