//! Builds number formats: each field of a format is set by name, and all fields are packed into a format word.
#![tactic(auto)]

pub mod format_builder;
pub mod laws;
