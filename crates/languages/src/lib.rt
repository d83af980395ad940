//! Data paths and the languages of expressions: definitions that the promises cite, and the algebra that evaluation rests on.
#![tactic(auto)]

pub mod step;
