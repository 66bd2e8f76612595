ghost use Rattle.std.specs.Prelude.{◌≡◌, ◌+◌, ◌<◌, ◌≤◌, ◌++◌, map, length, drop, MatchResult};
ghost use Rattle.std.specs.List.{AllByRecursion};
ghost use Rattle.refusals.specs.Numbers.{told};
ghost use Rattle.rows.specs.Plain.{plain_day};
ghost use Rattle.payoff.specs.Plain.{plain_tables};
ghost use Rattle.sharing.specs.Shares.{limit};
ghost use Rattle.ledger.specs.Lines.{lines_of};
ghost use Rattle.ledger.specs.Hour.{credits as all_credits, charges as all_charges};
ghost use Rattle.ledger.specs.Posting.{posting_of, PostAccepted, PostRefused};
ghost use Rattle.month.specs.Months.{of_open};
ghost use Rattle.month.specs.Hours.{RoomyRoll};
ghost use Rattle.month.specs.Sums.{sheet_line, rolled_line, entered, answered};

use crate::asked_hour::AskedHour;
use crate::books::Books;
use crate::hour::{add_sheet, write_amounts};
use crate::hour_dues::HourDues;
use crate::hour_sums::HourSums;
use crate::sheet::fill_sheet;
use crate::state::OpenMonth;
use ledger::{Due, HourAnswer, HourLine, NOTHING, RollLine};
use payoff::{Instrument, PlainTables};
use refusals::Refusal;
use rows::{Day, HoldingRow};
use units::Cents;

/// Writes an hour that was admitted: amounts, hour sheet and roll.
// the caller lends each of them by itself: how long they are is asked where they are taken
fn write_hour(hour: &HourDues, roll: &mut [RollLine], sheet: &mut [HourLine], amounts: &mut [i64])
    requires lines { (length roll.old ≡ hour.now.owners) × (length sheet.old ≡ hour.now.owners) }
    requires room { length hour.now.dues.now ≤ length amounts.old }
    requires roll { AllByRecursion RoomyRoll roll.old }
    ensures amounts { amounts.new ≡ map (λ d. d.amount.value) hour.now.dues.now ++ drop (length hour.now.dues.now) amounts.old }
    ensures sheet { sheet.new ≡ lines_of (length roll.old) (sheet_line hour.now.sums.short hour.now.dues.now) }
    ensures roll { roll.new ≡ lines_of (length roll.old) (rolled_line roll.old hour.now.sums.short hour.now.dues.now) }
{
    write_amounts(hour.dues, amounts);
    fill_sheet(sheet, hour);
    add_sheet(roll, sheet);
}

/// What a post answers of an hour.
fn answer(rent: Cents, sums: &HourSums, balance: u64) -> HourAnswer
    requires { balance ≤ limit }
    ensures { result ≡ answered rent sums.now balance }
{
    HourAnswer {
        rent,
        credits: Cents {
            value: sums.credits as i64,
        },
        charges: Cents {
            value: sums.charges as i64,
        },
        short: Cents {
            value: sums.short as i64,
        },
        balance: Cents {
            value: balance as i64,
        },
    }
}

impl OpenMonth {
    /// Enters an hour that was admitted into the month's own figures.
    fn enter(&mut self, day: &Day, sums: &HourSums)
        requires later { self.old.books.last < day.now.hour }
        requires month { (self.old.books.shorts + sums.now.short ≤ limit) × (self.old.balance + sums.now.left ≤ limit) }
        requires flows { (plain_day day.now).rent + sums.now.charges + sums.now.short ≡ sums.now.credits + sums.now.left }
        ensures { of_open self.new ≡ entered (of_open self.old) day.now.hour (plain_day day.now).rent sums.now }
    {
        *self = OpenMonth {
            books: Books {
                owners: self.books.owners,
                hours: self.books.hours + 1,
                last: day.hour,
                rents: self.books.rents + day.rent.value as u64,
                credits: self.books.credits + sums.credits,
                charges: self.books.charges + sums.charges,
                shorts: self.books.shorts + sums.short,
            },
            balance: self.balance + sums.left,
        };
    }

    /// Posts an hour under an instrument: writes each holding's amount and each owner's line of the hour sheet, adds
    /// the sheet to the roll, and answers the hour's rent, credits, charges and shortfall and the month's balance.
    /// A refused post changes nothing.
    pub fn post<I: Instrument>(
        &mut self,
        roll: &mut [RollLine],
        day: &Day,
        tables: &PlainTables,
        holdings: &[HoldingRow],
        instrument: &I,
        sheet: &mut [HourLine],
        amounts: &mut [i64],
    ) -> Result<HourAnswer, Refusal>
        ensures { let p = posting_of (I.means instrument.now) (plain_day day.now) (plain_tables tables.now) holdings.now sheet.old amounts.old in MatchResult result (λ a. PostAccepted (of_open self.old) roll.old p a (of_open self.new) roll.new sheet.new amounts.new) (λ e. PostRefused (of_open self.old) roll.old p (told e) (of_open self.new) roll.new sheet.new amounts.new) }
    {
        let none = Due {
            owner: 0,
            amount: NOTHING,
        };
        // no heap is used: the largest hour has room, and what each holding comes to stands in the front
        let mut table = [none; 1024];
        let asked = AskedHour {
            instrument,
            day,
            tables,
            holdings,
        };
        let sums = self.admit(roll, &asked, sheet, amounts, &mut table)?;
        let hour = HourDues {
            dues: &table[0..holdings.len()],
            sums,
            owners: roll.len(),
        };
        write_hour(&hour, roll, sheet, amounts);
        self.enter(day, &sums);
        Ok(answer(day.rent, &sums, self.balance))
    }
}
