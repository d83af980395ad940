//! Puts the question on the first line of standard input to the book behind it, and prints the lines of the answer, or the line of the refusal.
#![tactic(auto)]

mod failure;
mod program;
#[cfg(test)]
mod tests;
mod writing;

use failure::Failure;
use program::run;

fn main(rt: HostRuntime) -> Result<(), Failure> {
    run(rt.stdin(), &mut rt.stdout(), rt.alloc())
}
