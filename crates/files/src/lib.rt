//! Books as files: reading and writing.
#![tactic(auto)]

mod check;
pub mod counts;
mod fill;
mod frame;
mod put;
pub mod read;
pub mod write;
