//! Tables of cells: how the block of each part of an expression is filled from those of its halves.
#![tactic(auto)]

mod block;
pub mod cell;
pub mod cells;
mod close;
pub mod evaluate;
mod join;
mod letter;
mod relax;
mod tested;
