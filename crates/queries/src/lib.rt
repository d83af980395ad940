//! Queries: an expression that is parsed, evaluated over a source, and asked about pairs of entries.
#![tactic(auto)]

ghost use Rattle.std.specs.Prelude.{ℕ, ◌≤◌};
ghost use Rattle.queries.specs.Conditions.{entries_in};
ghost use Rattle.tables.specs.Limits.{most_entries};

pub mod calls;
pub mod condition;
pub mod found;
mod scan;

use condition::Condition;
use std::marker::Model;

/// A query. Only its calls change its condition.
#[derive(Drop)]
pub struct Query {
    condition: Condition,
    ghost small: { entries_in condition ≤ most_entries },
}

// Contracts see a query as its condition.
impl Model for Query {
    ghost use Rattle.queries.specs.declared.condition.Condition.{Condition};

    ghost Value = { Condition };

    ghost view = { λ q. q.condition };
}
