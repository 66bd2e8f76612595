ghost use Rattle.std.specs.Prelude.{◌≡◌, ℕ, ◌*◌, List, ◌++◌, length};
ghost use Rattle.std.specs.List.{AllByRecursion};
ghost use Rattle.codec.specs.Records.{Placed, encode_placed, row_of};
ghost use Rattle.format.specs.Hours.{records_of, factors_of};
ghost use Rattle.packages.specs.Filling.{Spelt, IsRead, IsPlaced, NextFields, records, rows_of};

use codec::{Row, fill_factors};
use records::Reader;

/// The fields of the next record.
pub(crate) fn next_fields<'a>(reader: &mut Reader<'a>) -> Option<&'a [u8]>
    ensures { NextFields result reader.old.rest.now reader.new.rest.now }
{
    let entry = reader.next().ok()??;
    Some(entry.fields)
}

/// Fills a table with the rows of as many records from the reader's place on, up to one that has none.
pub(crate) fn fill<R: Row>(reader: &mut Reader, table: &mut [R]) -> Option<()>
    ensures { (l : ℕ) (ks : List (Spelt R)) (more : List ℕ) → reader.old.rest.now ≡ records l ks ++ more → length ks ≡ length table.old → AllByRecursion (IsRead (row_of R.is_len R.row_at)) ks → (table.new ≡ rows_of ks) × (reader.new.rest.now ≡ more) }
{
    for cell in table.iter_mut() {
        *cell = R::of(next_fields(reader)?)?;
    }
    Some(())
}

/// Fills a table with the shift factors of so many P records from the reader's place on, a row for each.
pub(crate) fn fill_rows(
    reader: &mut Reader,
    points: usize,
    columns: usize,
    table: &mut [i16],
) -> Option<()>
    requires { length table.old ≡ points * columns }
    ensures { (xs : List Placed) (more : List ℕ) → reader.old.rest.now ≡ records_of 80 encode_placed xs ++ more → length xs ≡ points → AllByRecursion (IsPlaced columns) xs → (table.new ≡ factors_of xs) × (reader.new.rest.now ≡ more) }
{
    // a chunk of no columns is none, so the rows are counted
    for i in 0..points {
        let at = i * columns;
        fill_factors(
            next_fields(reader)?.get(13..)?,
            &mut table[at..at + columns],
        );
    }
    Some(())
}
