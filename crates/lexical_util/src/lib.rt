//! Number formats as `u128` values: their fields, and the functions that build, edit and check them.
//!
//! This crate re-exports the modules of `lexical_base`, `lexical_flags` and `lexical_builder` under the module names of
//! `lexical-util`, so that a program needs only this crate. It also re-exports their definitions in `specs`, and their
//! laws in [`laws`].
#![tactic(auto)]

pub mod edits;
pub mod feature_format;
pub mod format;
mod lawful;
pub mod laws;
pub mod numeral;
pub mod reasons;
pub mod source;
pub mod word_text;

pub use lexical_base::{ascii, digit, error, short_text};
pub use lexical_builder::format_builder;
pub use lexical_flags::format_flags;
