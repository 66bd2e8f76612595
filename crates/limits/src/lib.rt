//! Rows, tables and the pricing call at the edges of their ranges.

#![tactic(auto)]

#[cfg(test)]
mod pricing_tests;
#[cfg(test)]
mod row_tests;
#[cfg(test)]
mod table_tests;
