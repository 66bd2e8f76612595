use payoff::{PlainTables, test_tables};
use rows::{ConstraintRow, PointRow};

const CONSTRAINT: ConstraintRow = ConstraintRow {
    shadow: 1_000_000,
    deration: 10_000,
};

const POINT: PointRow = PointRow {
    letter: b'R',
    price: -1_000_000,
    minimum: -1_000_000,
    maximum: 1_000_000,
};

/// What testing tables answers: a refusal's number and place, and 0 at 0 where there is none.
fn tested(constraints: &[ConstraintRow], points: &[PointRow], factors: &[i16]) -> (u8, usize) {
    let tables = PlainTables {
        constraints,
        points,
        factors,
    };
    match test_tables(&tables) {
        Ok(_) => (0, 0),
        Err(e) => (e.cause.number(), e.place),
    }
}

#[test]
fn sizes(rt: HostRuntime) {
    let c = [CONSTRAINT; 33];
    let p = [POINT; 257];
    let f = [10_000i16; 8448];
    assert_eq!(rt; tested(&c[0..0], &p[0..0], &f[0..0]), (0, 0));
    assert_eq!(rt; tested(&c[0..1], &p[0..0], &f[0..0]), (0, 0));
    assert_eq!(rt; tested(&c[0..0], &p[0..256], &f[0..0]), (0, 0));
    assert_eq!(rt; tested(&c[0..32], &p[0..256], &f[0..8192]), (0, 0));
    assert_eq!(rt; tested(&c[0..33], &p[0..256], &f[0..8448]), (11, 0));
    assert_eq!(rt; tested(&c[0..32], &p[0..257], &f[0..8224]), (11, 0));
    assert_eq!(rt; tested(&c[0..32], &p[0..256], &f[0..8191]), (11, 0));
    assert_eq!(rt; tested(&c[0..32], &p[0..256], &f[0..8193]), (11, 0));
}

#[test]
fn entries(rt: HostRuntime) {
    let mut constraints = [CONSTRAINT; 2];
    let mut points = [POINT; 3];
    let mut factors = [-10_000i16; 6];
    factors[5] = -10_001;
    assert_eq!(rt; tested(&constraints, &points, &factors), (18, 5));
    points[2].letter = b'X';
    assert_eq!(rt; tested(&constraints, &points, &factors), (18, 2));
    constraints[1].deration = 10_001;
    assert_eq!(rt; tested(&constraints, &points, &factors), (18, 1));
    assert_eq!(rt; tested(&constraints, &points, &factors[0..5]), (11, 0));
}
