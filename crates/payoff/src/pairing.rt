ghost use Rattle.std.specs.Prelude.{◌≡◌, true, is_some, Some};
ghost use Rattle.std.specs.Option.{option_map};
ghost use Rattle.rows.specs.Letters.{point_of};
ghost use Rattle.rows.specs.Plain.{plain_point, plain_holding};
ghost use Rattle.rows.specs.Ranges.{point_ok};
ghost use Rattle.payoff.specs.View.{tables_of, plain_pair, pair_of};

use crate::pair::Pair;
use crate::tested::TestedTables;
use rows::{Holding, Point, PointKind, PointRow};
use units::Price;

/// The kind that a point's letter names, which is one of the three.
// an instrument is named so in the month: one function for both would have to be told what a letter means
fn named_kind(letter: u8) -> PointKind
    requires { is_some (point_of letter) ≡ true }
    ensures { point_of letter ≡ Some result }
{
    PointKind::try_from(letter as char).unwrap()
}

/// The point of a row that has passed its test. `Point::typed` would test it again for each holding.
fn typed_point(row: &PointRow) -> Point
    requires { point_ok row.now ≡ true }
    ensures { plain_point result ≡ row.now }
{
    Point {
        kind: named_kind(row.letter),
        price: Price { value: row.price },
        minimum: Price { value: row.minimum },
        maximum: Price { value: row.maximum },
    }
}

impl TestedTables<'_> {
    /// The two points of a holding; none where one is not on the table, or both are the same.
    pub fn pair(&self, holding: &Holding) -> Option<Pair>
        ensures { option_map plain_pair result ≡ pair_of (tables_of self.now) (plain_holding holding.now) }
    {
        let source = holding.source as usize;
        let sink = holding.sink as usize;
        if source >= self.plain.points.len() || sink >= self.plain.points.len() || source == sink {
            return None;
        }
        Some(Pair {
            source: typed_point(&self.plain.points[source]),
            sink: typed_point(&self.plain.points[sink]),
        })
    }
}
