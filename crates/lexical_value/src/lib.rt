//! The values of literals.
//!
//! A literal of any length has a value or an error. No function allocates memory.
#![tactic(auto)]

pub mod float;
pub mod integer;
pub mod laws;
pub mod parse;
pub mod scaled;
