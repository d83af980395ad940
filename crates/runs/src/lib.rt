//! Runs of calls of one query, and the law that they obey.
#![tactic(auto)]

pub mod law;
pub mod request;
pub mod run;
