ghost use Rattle.std.specs.Prelude.{◌≡◌, Bool, true, not, ◌&&◌};
ghost use Rattle.std.specs.List.{fold, position};
ghost use Rattle.rows.specs.Ranges.{constraint_ok, point_ok, factor_ok, holding_ok};
ghost use Rattle.rows.specs.Firsts.{first_bad};

use crate::constraint::Constraint;
use crate::from_row::FromRow;
use crate::holding::Holding;
use crate::plain::{ConstraintRow, HoldingRow, PointRow};
use crate::point::Point;

/// What lies plain in a table, with the test of its figures and letters.
pub trait Sound {
    ghost ok: { Self → Bool };

    fn sound(&self) -> bool
        ensures { result ≡ ok self.now };
}

// each kind of row is sound as its typed row is made, which one line says
impl Sound for ConstraintRow {
    ghost ok = { constraint_ok };

    fn sound(&self) -> bool {
        Constraint::typed(self).is_some()
    }
}

impl Sound for PointRow {
    ghost ok = { point_ok };

    fn sound(&self) -> bool {
        Point::typed(self).is_some()
    }
}

impl Sound for i16 {
    ghost ok = { factor_ok };

    fn sound(&self) -> bool {
        (-10_000..=10_000).contains(self)
    }
}

impl Sound for HoldingRow {
    ghost ok = { holding_ok };

    fn sound(&self) -> bool {
        Holding::typed(self).is_some()
    }
}

/// Whether every entry passes its test. All are tested, even past one that fails: with no way out of the loop the
/// compiler tests several shift factors at once.
fn all_sound<R: Sound>(rows: &[R]) -> bool
    ensures { result ≡ fold (λ all row. all && R.ok row) true rows.now }
{
    rows.iter().fold(true, |all, row| all & row.sound())
}

/// The place of the first entry that fails its test.
fn first_failing<R: Sound>(rows: &[R]) -> Option<usize>
    ensures { result ≡ position (λ row. not (R.ok row)) rows.now }
{
    rows.iter().position(|row| !row.sound())
}

/// The place of the first entry that fails its test, which is looked for only where one does.
#[tactic(auto, using(crate::proofs::Firsts::none_told, crate::proofs::Firsts::place_told))]
pub fn first_bad<R: Sound>(rows: &[R]) -> Option<usize>
    ensures { result ≡ first_bad R.ok rows.now }
{
    if all_sound(rows) {
        None
    } else {
        first_failing(rows)
    }
}
