//! Numbers are written as literals of a syntax.
//!
//! A number is laid out as the parts of a literal, and the parts are written to any [`Sink`][sink::Sink]. What is written
//! is a literal of the syntax, and its value is the number, or a float that is rounded if the style wishes so.
//! No function allocates memory.
#![tactic(auto)]

pub mod binary;
pub mod choice;
pub mod digits;
pub mod float;
pub mod float_digits;
pub mod form;
pub mod integer;
pub mod laws;
pub mod layout;
pub mod literal;
pub mod patterns;
pub mod rounded;
pub mod run;
pub mod sink;
pub mod units;
