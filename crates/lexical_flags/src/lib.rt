//! Number formats as values of type `u128`: the layout of their flags and bytes, the functions that read them, and the
//! rules that a lawful format satisfies.
#![tactic(auto)]

pub mod format_flags;
pub mod laws;
