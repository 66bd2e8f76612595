/// A set of instrument letters: B, O, b and o.
#[derive(Clone, Copy)]
pub struct LetterSet {
    pub obligation: bool,
    pub option: bool,
    pub obligation_with_refund: bool,
    pub option_with_refund: bool,
}
