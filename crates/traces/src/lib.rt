//! Traces: how the steps of a path are taken from a table.
#![tactic(auto)]

mod choice;
mod chooser;
pub mod trace;
