use payoff::{Obligation, PlainTables, standard_instrument};
use pricing::price;
use rows::{ConstraintRow, HoldingRow, PointRow};

const CONSTRAINT: ConstraintRow = ConstraintRow {
    shadow: 1_000_000,
    deration: 10_000,
};

fn point(letter: u8, price: i32, minimum: i32, maximum: i32) -> PointRow {
    PointRow {
        letter,
        price,
        minimum,
        maximum,
    }
}

fn held(letter: u8, source: u16, sink: u16) -> HoldingRow {
    HoldingRow {
        owner: 0,
        letter,
        source,
        sink,
        quantity: 100_000,
        block: b'W',
        actual: 0,
        real_time: 0,
    }
}

/// The amount of a holding in the hour of the largest figures, or a refusal's number and place.
fn amount(holding: &HoldingRow) -> Result<i64, (u8, usize)> {
    let points = [
        point(b'Z', 1_000_000, 0, 0),
        point(b'R', -1_000_000, -1_000_000, 1_000_000),
        point(b'H', -1_000_000, 0, 0),
        point(b'R', -1_000_000, 1_000_000, 1_000_000),
    ];
    let factors = [-10_000, 10_000, 0, 10_000];
    let tables = PlainTables {
        constraints: &[CONSTRAINT; 1],
        points: &points,
        factors: &factors,
    };
    price(&standard_instrument(), &tables, holding)
        .map(|p| p.amount.value)
        .map_err(|e| (e.cause.number(), e.place))
}

/// The deration price of the largest hour: every constraint adds its most.
fn largest_deration() -> Option<i32> {
    let points = [point(b'R', 0, 0, 0), point(b'Z', 0, 0, 0)];
    let mut factors = [10_000i16; 64];
    factors[32..].fill(-10_000);
    let tables = PlainTables {
        constraints: &[CONSTRAINT; 32],
        points: &points,
        factors: &factors,
    };
    price(&Obligation, &tables, &held(b'B', 0, 1))
        .ok()
        .map(|p| p.deration_price.value)
}

#[test]
fn largest_figures(rt: HostRuntime) {
    // a pair without a Resource Node is not derated, and neither is a charge
    assert_eq!(rt; amount(&held(b'B', 2, 0)), Ok(-20_000_000_000));
    assert_eq!(rt; amount(&held(b'B', 0, 2)), Ok(20_000_000_000));
    assert_eq!(rt; amount(&held(b'O', 0, 2)), Ok(0));
    assert_eq!(rt; amount(&held(b'B', 0, 1)), Ok(20_000_000_000));
    // the hedge price holds the payment up, whole or not at all
    assert_eq!(rt; amount(&held(b'B', 1, 0)), Ok(-20_000_000_000));
    assert_eq!(rt; amount(&held(b'O', 3, 0)), Ok(0));
    let mut most = held(b'b', 1, 0);
    most.actual = 800_000;
    most.real_time = 100_000;
    assert_eq!(rt; amount(&most), Ok(-20_000_000_000));
    most.actual = 1;
    assert_eq!(rt; amount(&most), Ok(0));
    let mut least = held(b'B', 2, 0);
    least.quantity = 1;
    assert_eq!(rt; amount(&least), Ok(-200_000));
    assert_eq!(rt; largest_deration(), Some(64_000_000));
}

#[test]
fn refusals(rt: HostRuntime) {
    assert_eq!(rt; amount(&held(b'B', 1, 1)), Err((13, 0)));
    assert_eq!(rt; amount(&held(b'B', 4, 0)), Err((13, 0)));
    assert_eq!(rt; amount(&held(b'B', 0, u16::MAX)), Err((13, 0)));
    assert_eq!(rt; amount(&held(b'b', 2, 0)), Err((15, 0)));
    assert_eq!(rt; amount(&held(b'o', 1, 3)), Err((15, 0)));
    assert_eq!(rt; amount(&held(b'N', 1, 1)), Err((18, 0)));
    let mut none = held(b'b', 1, 1);
    none.quantity = 0;
    assert_eq!(rt; amount(&none), Err((18, 0)));
}
