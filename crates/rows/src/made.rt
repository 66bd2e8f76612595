ghost use Rattle.std.specs.Prelude.{◌≡◌, true, pos, neg_ℤ, ◌≤ℤ◌};
ghost use Rattle.rows.specs.Ranges.{constraint_ok, point_ok, price_ok, resource_prices_ok};
ghost use Rattle.rows.specs.Plain.{plain_constraint, plain_point};

use crate::constraint::Constraint;
use crate::from_row::FromRow;
use crate::letters::PointKind;
use crate::plain::{ConstraintRow, PointRow};
use crate::point::Point;
use units::{Factor, Price};

impl FromRow for Constraint {
    type Row = ConstraintRow;

    ghost plain = { plain_constraint };

    ghost ok = { constraint_ok };

    fn typed(row: &ConstraintRow) -> Option<Constraint> {
        if row.shadow > 1_000_000 || row.deration > 10_000 {
            return None;
        }
        Some(Constraint {
            shadow: Price {
                value: row.shadow as i32,
            },
            deration: Factor {
                value: row.deration as i16,
            },
        })
    }
}

fn price_ok(value: i32) -> bool
    ensures { result ≡ price_ok value }
{
    (-1_000_000..=1_000_000).contains(&value)
}

/// The price of a point, of a number in range.
fn point_price(value: i32) -> Price
    requires { price_ok value ≡ true }
    ensures value { result.value ≡ value }
    ensures low { neg_ℤ (pos 1000000) ≤ℤ result.value }
    ensures high { result.value ≤ℤ pos 1000000 }
{
    Price { value }
}

fn resource_prices_ok(kind: PointKind, minimum: i32, maximum: i32) -> bool
    ensures { result ≡ resource_prices_ok kind minimum maximum }
{
    match kind {
        PointKind::ResourceNode => minimum <= maximum,
        PointKind::LoadZone | PointKind::Hub => minimum == 0 && maximum == 0,
    }
}

impl FromRow for Point {
    type Row = PointRow;

    ghost plain = { plain_point };

    ghost ok = { point_ok };

    fn typed(row: &PointRow) -> Option<Point> {
        let kind = PointKind::try_from(row.letter as char).ok()?;
        if !price_ok(row.price) || !price_ok(row.minimum) || !price_ok(row.maximum) {
            return None;
        }
        if !resource_prices_ok(kind, row.minimum, row.maximum) {
            return None;
        }
        Some(Point {
            kind,
            price: point_price(row.price),
            minimum: point_price(row.minimum),
            maximum: point_price(row.maximum),
        })
    }
}
