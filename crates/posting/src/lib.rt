//! An hour posted from the tables that it was read into.

#![tactic(auto)]

mod posts;

pub use posts::post_hour;
