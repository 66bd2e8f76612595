//! Why each holding of a package is paid what it is, in text for a clerk.

#![tactic(auto)]

mod package_text;

pub use package_text::explain_package;
