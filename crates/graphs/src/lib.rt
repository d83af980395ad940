//! Graphs of entries and lettered links, and the sources that mean them.
#![tactic(auto)]

pub mod book;
pub mod layers;
pub mod link;
pub mod sheet;
pub mod source;
