//! Tests by public calls: the rows that were asked for, also of what is proved, values that are known without this
//! program, the callers with values from outside, and the values that only Rattle has.
#![tactic(auto)]

mod bytes;
mod example;
mod outcomes;
mod values;
mod words;
