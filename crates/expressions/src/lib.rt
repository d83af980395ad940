//! Regular expressions with equality: the texts that word them, and the parts that they are stored as.
#![tactic(auto)]

mod draft;
pub mod parse;
pub mod part;
mod reader;
