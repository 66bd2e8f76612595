ghost use Rattle.std.specs.Prelude.{◌≡◌, ◌≤◌, length, IfOk};
ghost use Rattle.refusals.specs.Numbers.{told_by};
ghost use Rattle.statement.specs.Lines.{length_of, written};
ghost use Rattle.rows.specs.Plain.{plain_day};
ghost use Rattle.format.specs.Hours.{tables};
ghost use Rattle.settlement.specs.Settled.{figures_told, statement_in, settled, within};

use format::{MOST_CONSTRAINTS, MOST_FACTORS, MOST_HOLDINGS, MOST_POINTS};
use hours::{NO_CONSTRAINT, NO_FACTOR, NO_HOLDING, NO_POINT};
use ledger::{CLEAR_HOUR, CLEAR_ROLL, HourAnswer};
use month::open;
use packages::read_package;
use payoff::{Instrument, PlainTables};
use refusals::Refusal;
use rows::{Day, HoldingRow};
use statement::{HourFigures, write_statement};

/// What a post answered, as a statement tells it.
// neither type is this crate's, so no From can stand here
fn figures_of(answer: &HourAnswer) -> HourFigures
    ensures { result ≡ figures_told answer.now }
{
    HourFigures {
        rent: answer.rent.value,
        credits: answer.credits.value,
        charges: answer.charges.value,
        shortfall: answer.short.value,
        balance: answer.balance.value,
    }
}

/// Settles an hour that was read, and writes its statement.
fn settle_hour<I: Instrument>(
    instrument: &I,
    day: &Day,
    plain: &PlainTables,
    holdings: &[HoldingRow],
    out: &mut [u8],
) -> Result<usize, Refusal>
    ensures answer { told_by (λ n. n) result ≡ length_of (within (length out.old) (statement_in (I.means instrument.now) (tables (plain_day day.now) plain.now.constraints.now plain.now.points.now plain.now.factors.now holdings.now))) }
    ensures buffer { out.new ≡ written (within (length out.old) (statement_in (I.means instrument.now) (tables (plain_day day.now) plain.now.constraints.now plain.now.points.now plain.now.factors.now holdings.now))) out.old }
{
    let mut roll = [CLEAR_ROLL; 128];
    let mut month = open(&mut roll)?;
    let mut sheet = [CLEAR_HOUR; 128];
    let mut amounts = [0i64; MOST_HOLDINGS];
    let answer = month.post(
        &mut roll,
        day,
        plain,
        holdings,
        instrument,
        &mut sheet,
        &mut amounts,
    )?;
    write_statement(day, holdings, &amounts, &figures_of(&answer), out)
}

/// Settles the hour of a package under an instrument and writes its statement into the caller's buffer: answers the
/// statement's length, or refuses by the first test of reading, posting and writing that fails, and the buffer then
/// stays. The tables are locals and no `HourTables`, since a table that is moved into a struct is copied.
pub fn settle_package<I: Instrument>(
    instrument: &I,
    bytes: &[u8],
    out: &mut [u8],
) -> Result<usize, Refusal>
    ensures inside { IfOk result (λ n. n ≤ length out.old) }
    ensures answer { told_by (λ n. n) result ≡ length_of (within (length out.old) (settled (I.means instrument.now) bytes.now)) }
    ensures buffer { out.new ≡ written (within (length out.old) (settled (I.means instrument.now) bytes.now)) out.old }
{
    let mut constraints = [NO_CONSTRAINT; MOST_CONSTRAINTS];
    let mut points = [NO_POINT; MOST_POINTS];
    let mut factors = [NO_FACTOR; MOST_FACTORS];
    let mut holdings = [NO_HOLDING; MOST_HOLDINGS];
    let hour = read_package(
        bytes,
        &mut constraints,
        &mut points,
        &mut factors,
        &mut holdings,
    )?;
    let plain = PlainTables {
        constraints: &constraints[..hour.constraints],
        points: &points[..hour.points],
        factors: &factors[..hour.factors],
    };
    settle_hour(
        instrument,
        &hour.day,
        &plain,
        &holdings[..hour.holdings],
        out,
    )
}
