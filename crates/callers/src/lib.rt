//! Callers of `lexical_util`, one for each kind of user. Each is proved from the public contracts of the library.
//!
//! [`digits`] is the smallest, so read it first. [`formats`] defines formats as constants and proves them lawful.
//! [`edit`] edits words, [`build`] builds them, and [`keep`] replaces stored words by their normal
//! forms. [`roles`] is about the roles of bytes. The page docs/CALLING.md explains these callers.
#![tactic(auto)]

pub mod build;
pub mod digits;
pub mod edit;
pub mod formats;
pub mod keep;
pub mod roles;
