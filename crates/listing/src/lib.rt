//! Lines of text about a book: each is made into a buffer of the caller's, and ends with byte 10.
#![tactic(auto)]

pub mod lines;
