//! Numbers of several forms, with their suffixes and special values, and tokens of source text.
#![tactic(auto)]

mod behind;
mod candidate;
mod exclude;
pub mod form;
pub mod laws;
pub mod list;
pub mod opening;
pub mod specials;
pub mod suffix;
pub mod token;
