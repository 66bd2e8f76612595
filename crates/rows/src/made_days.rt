ghost use Rattle.rows.specs.Ranges.{day_ok};
ghost use Rattle.rows.specs.Plain.{plain_day};

use crate::day::Day;
use crate::from_row::FromRow;
use crate::plain::DayRow;
use units::Cents;

impl FromRow for Day {
    type Row = DayRow;

    ghost plain = { plain_day };

    ghost ok = { day_ok };

    fn typed(row: &DayRow) -> Option<Day> {
        if !(1..=744).contains(&row.hour)
            || row.weekday > 6
            || !(1..=24).contains(&row.ending)
            || row.rent > 3_000_000_000
        {
            return None;
        }
        Some(Day {
            hour: row.hour,
            weekday: row.weekday,
            ending: row.ending,
            rent: Cents {
                value: row.rent as i64,
            },
        })
    }
}
