//! Worked examples of books, days, sources, wordings, questions and refusals, run and compared with what they should give.
#![tactic(auto)]

#[cfg(test)]
mod answers;
#[cfg(test)]
mod books;
#[cfg(test)]
mod calls;
#[cfg(test)]
mod days;
#[cfg(test)]
mod evaluating;
#[cfg(test)]
mod lines;
#[cfg(test)]
mod names;
#[cfg(test)]
mod questions;
#[cfg(test)]
mod refused;
#[cfg(test)]
mod sources;
#[cfg(test)]
mod tracing;
#[cfg(test)]
mod values;
#[cfg(test)]
mod wordings;
