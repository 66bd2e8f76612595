ghost use Rattle.std.specs.Prelude.{◌≡◌, Ok, Err, MatchResult};
ghost use Rattle.refusals.specs.Numbers.{told};
ghost use Rattle.rows.specs.Plain.{plain_day};
ghost use Rattle.payoff.specs.Tables.{tables};
ghost use Rattle.payoff.specs.Plain.{plain_tables};
ghost use Rattle.hours.specs.Read.{tables_in, held_in, no_hour, hour_read};

use crate::blanks::{NO_CONSTRAINT, NO_FACTOR, NO_HOLDING, NO_POINT};
use crate::hour_tables::HourTables;
use format::{MOST_CONSTRAINTS, MOST_FACTORS, MOST_HOLDINGS, MOST_POINTS};
use packages::{Filled, read_package};
use payoff::PlainTables;
use refusals::Refusal;
use rows::{ConstraintRow, Day, HoldingRow, PointRow};
use units::Cents;

/// The first hour of a month, on a Monday, with no rent.
fn first_hour() -> Day
    ensures { plain_day result ≡ no_hour.day }
{
    Day {
        hour: 1,
        weekday: 0,
        ending: 1,
        rent: Cents { value: 0 },
    }
}

impl HourTables {
    /// Tables of an hour with nothing in it.
    pub fn new() -> HourTables
        ensures { tables_in result ≡ no_hour }
    {
        HourTables {
            found: Filled {
                day: first_hour(),
                constraints: 0,
                points: 0,
                factors: 0,
                holdings: 0,
            },
            constraints: [NO_CONSTRAINT; MOST_CONSTRAINTS],
            points: [NO_POINT; MOST_POINTS],
            factors: [NO_FACTOR; MOST_FACTORS],
            holdings: [NO_HOLDING; MOST_HOLDINGS],
        }
    }

    /// Reads the hour of a package in place of the one before, or refuses by the first test that fails, and the tables
    /// then stay.
    pub fn read(&mut self, bytes: &[u8]) -> Result<(), Refusal>
        ensures { MatchResult result (λ _. hour_read bytes.now ≡ Ok (tables_in self.new)) (λ e. (hour_read bytes.now ≡ Err (told e)) × (held_in self.new ≡ held_in self.old)) }
    {
        self.found = read_package(
            bytes,
            &mut self.constraints,
            &mut self.points,
            &mut self.factors,
            &mut self.holdings,
        )?;
        Ok(())
    }

    /// The day row.
    pub fn day(&self) -> Day
        ensures { plain_day result ≡ (tables_in self.now).day }
    {
        self.found.day
    }

    /// The constraints.
    pub fn constraints(&self) -> &[ConstraintRow]
        ensures { result.now ≡ (tables_in self.now).constraints }
    {
        &self.constraints[0..self.found.constraints]
    }

    /// The points.
    pub fn points(&self) -> &[PointRow]
        ensures { result.now ≡ (tables_in self.now).points }
    {
        &self.points[0..self.found.points]
    }

    /// The shift factors, a row for each point.
    pub fn factors(&self) -> &[i16]
        ensures { result.now ≡ (tables_in self.now).factors }
    {
        &self.factors[0..self.found.factors]
    }

    /// The constraints, points and shift factors.
    pub fn tables(&self) -> PlainTables<'_>
        ensures { plain_tables result ≡ tables (tables_in self.now).constraints (tables_in self.now).points (tables_in self.now).factors }
    {
        PlainTables {
            constraints: self.constraints(),
            points: self.points(),
            factors: self.factors(),
        }
    }

    /// The holdings.
    pub fn holdings(&self) -> &[HoldingRow]
        ensures { result.now ≡ (tables_in self.now).holdings }
    {
        &self.holdings[0..self.found.holdings]
    }
}
