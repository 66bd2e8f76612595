//! Why an hour settles as it does, from its package, in text for a clerk.

#![tactic(auto)]

mod owners;
mod package_text;

pub use package_text::explain_package;
