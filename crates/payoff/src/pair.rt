use rows::Point;

/// The two ends of a holding.
#[derive(Clone, Copy)]
pub struct Pair {
    pub source: Point,
    pub sink: Point,
}
