// The calls of a query. Each is matched in place, together with the condition that the query is in.
ghost use Rattle.std.specs.Prelude.{◌≡◌, ℕ, ◌≤◌, OnOk};
ghost use Rattle.queries.specs.Calls.{Parses, Evaluates, Looks, Nexts, Tallies, Traces};
ghost use Rattle.queries.specs.Conditions.{entries_in, expr_in};
ghost use Rattle.queries.specs.Meanings.{Meant};
ghost use Rattle.queries.specs.declared.condition.Condition.TheVariants.{Blank};
ghost use Rattle.tables.specs.Limits.{most_entries};

use crate::Query;
use crate::condition::{Condition, Evaluation};
use crate::found::Found;
use crate::scan::{first_from, tally};
use expressions::parse::parse;
use graphs::source::Source;
use languages::step::Step;
use refusals::Refusal;
use tables::evaluate::evaluate;
use traces::trace::trace;

impl Query {
    /// A blank query.
    pub fn new() -> Query
        ensures { result ≡ Blank }
    {
        Query {
            condition: Condition::Blank,
        }
    }

    /// Reads a wording. What was evaluated is dropped.
    pub fn parse(&mut self, text: &[u8]) -> Result<(), Refusal>
        ensures parsed { Parses self.old text.now self.new result }
        ensures few { (entries_in self.old ≤ most_entries) × (entries_in self.new ≤ most_entries) }
    {
        match (&mut self.condition, parse(text)) {
            (condition, Ok(parts)) => {
                *condition = Condition::Parsed(parts);
                Ok(())
            }
            (_, Err(refusal)) => Err(refusal),
        }
    }

    /// Evaluates the expression over a source, into a table.
    pub fn evaluate<S: Source>(&mut self, source: &S, table: &mut [u32]) -> Result<(), Refusal>
        ensures evaluated { Evaluates self.old (S.Source.graph source.now) table.old self.new table.new result }
        ensures meant { OnOk result (Meant (S.Source.graph source.now) (expr_in self.new) self.new table.new) }
        ensures few { (entries_in self.old ≤ most_entries) × (entries_in self.new ≤ most_entries) }
    {
        match (&mut self.condition, source) {
            (Condition::Blank, _) => Err(Refusal::QueryBlank),
            (
                condition @ &mut (Condition::Parsed(parts)
                | Condition::Evaluated(Evaluation { parts, .. })),
                source,
            ) => {
                let entries = evaluate(source, &parts, table)?;
                *condition = Condition::Evaluated(Evaluation { parts, entries });
                Ok(())
            }
        }
    }

    /// What joins a pair of entries.
    pub fn lookup(&self, table: &[u32], u: usize, v: usize) -> Result<Found, Refusal>
        ensures looked { Looks self.now table.now u v result }
        ensures few { entries_in self.now ≤ most_entries }
    {
        match (&self.condition, u, v) {
            (Condition::Evaluated(evaluation), u, v) => {
                if u >= evaluation.entries || v >= evaluation.entries {
                    return Err(Refusal::NoSuchEntry);
                }
                Ok(Found::from(evaluation.cells(table)?.of_whole(u, v)))
            }
            _ => Err(Refusal::NotEvaluated),
        }
    }

    /// The first joined pair, after a given one if any; `None` behind the last.
    // Inlined, as a call hands its result over through memory, which takes longer than to find the pair.
    #[inline(always)]
    pub fn next(
        &self,
        table: &[u32],
        after: Option<(usize, usize)>,
    ) -> Result<Option<(usize, usize)>, Refusal>
        ensures answered { Nexts self.now table.now after result }
        ensures few { entries_in self.now ≤ most_entries }
    {
        match (&self.condition, after) {
            (Condition::Evaluated(evaluation), Some((u, v))) => {
                if u >= evaluation.entries || v >= evaluation.entries {
                    return Err(Refusal::NoSuchEntry);
                }
                let block = evaluation.cells(table)?.whole();
                Ok(first_from(block, evaluation.entries, u, v + 1))
            }
            (Condition::Evaluated(evaluation), None) => {
                let block = evaluation.cells(table)?.whole();
                Ok(first_from(block, evaluation.entries, 0, 0))
            }
            _ => Err(Refusal::NotEvaluated),
        }
    }

    /// How many pairs are joined.
    pub fn tally(&self, table: &[u32]) -> Result<usize, Refusal>
        ensures tallied { Tallies self.now table.now result }
        ensures few { entries_in self.now ≤ most_entries }
    {
        match (&self.condition, table) {
            (Condition::Evaluated(evaluation), table) => {
                let block = evaluation.cells(table)?.whole();
                Ok(tally(block))
            }
            _ => Err(Refusal::NotEvaluated),
        }
    }

    /// The steps of a shortest path that joins a pair of entries, at the front of the buffer; and how many they are.
    pub fn trace(
        &self,
        table: &[u32],
        u: usize,
        v: usize,
        steps: &mut [Step],
    ) -> Result<usize, Refusal>
        ensures traced { Traces self.now table.now u v steps.old steps.new result }
        ensures few { entries_in self.now ≤ most_entries }
    {
        match (&self.condition, u, v) {
            (Condition::Evaluated(evaluation), u, v) => {
                trace(&evaluation.parts, table, evaluation.entries, u, v, steps)
            }
            _ => Err(Refusal::NotEvaluated),
        }
    }
}
