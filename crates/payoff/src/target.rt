/// What a plain instrument makes of the spread between its points.
// no closure: the definitions of the instruments name their rule, and each clause would have to say what a closure does
#[derive(Clone, Copy)]
pub(crate) enum TargetRule {
    Spread,
    PositiveSpread,
}
