//! Number literals: what a literal of a format is, calls that read one, and why a text is not one.
//!
//! A [`Syntax`][syntax::Syntax] reads its literals. An error has the cause of a refusal.
#![tactic(auto)]

pub mod cause;
mod group_size;
pub mod kind;
pub mod laws;
pub mod literal;
pub mod read;
mod scan;
mod span;
#[doc(hidden)]
pub mod step;
#[doc(hidden)]
pub mod stop;
pub mod syntax;
