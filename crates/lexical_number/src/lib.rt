//! The numbers that digits represent, as values of integer types, and the floats nearest to them.
//!
//! This crate knows digits and bytes, and nothing of formats and literals. No function allocates memory.
#![tactic(auto)]

pub mod big;
pub mod binary;
#[doc(hidden)]
pub mod decimal;
pub mod float;
pub mod integer;
#[doc(hidden)]
pub mod leading;
mod long;
mod nearest;
pub mod numeral;
mod powers;
pub mod scaling;
pub mod shortest;
#[doc(hidden)]
pub mod small;
