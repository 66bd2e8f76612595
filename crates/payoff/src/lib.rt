//! What an instrument means: the hour's tables, tested once; the payoff rules as a trait's law; obligation, option,
//! Refund over any instrument and Choice over any two.

#![tactic(auto)]

mod choice;
mod deration;
mod figures;
mod instrument;
mod letters;
mod letters_of;
mod pair;
mod pairing;
mod paying;
mod payment;
mod plain;
mod prices;
mod refund;
mod standard;
mod tables;
mod target;
mod tested;
mod testing;

pub use choice::Choice;
pub use figures::Figures;
pub use instrument::Instrument;
pub use letters::LetterSet;
pub use pair::Pair;
pub use payment::Payment;
pub use plain::{Obligation, PtpOption};
pub use refund::Refund;
pub use standard::{StandardInstrument, standard_instrument};
pub use tables::PlainTables;
pub use tested::TestedTables;
pub use testing::test_tables;
