//! This crate tests bytes, converts digits, and defines the error type. The other crates depend on it. Nothing here
//! allocates memory.
#![tactic(auto)]

pub mod ascii;
pub mod digit;
pub mod error;
pub mod laws;
pub mod short_text;
