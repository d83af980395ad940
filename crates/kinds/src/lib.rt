//! Kinds of value: what the entries of a book hold, when two of them are the same, and how they stand in a file.
#![tactic(auto)]

pub mod calendar;
pub mod day;
pub mod kind;
pub mod name;
mod payload;
mod years;
