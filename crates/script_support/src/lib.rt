//! What tests of whole scripts share: scripts in a short form and by chance, registers by name, and readers and writers that
//! break.
//!
//! It stands on the standard library alone, and asks nobody to end a process: what compares stands in the tests.
#![tactic(auto)]

pub mod broken;
mod chance;
mod clusters;
mod register_words;
pub mod registers;
pub mod seeded;
pub mod short;
