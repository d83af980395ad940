//! The work of the program `pairs`, which asks one question: the input is split, the wording parsed, the book read, the question evaluated, and the answer listed.
#![tactic(auto)]

pub mod answer;
mod ask;
mod evaluated;
pub mod input;
mod list;
mod measure;
pub mod room;
