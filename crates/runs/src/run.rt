// Runs: requests made one after another of a new query.
ghost use Rattle.runs.specs.Making.{Made};
ghost use Rattle.runs.specs.Requests.{Ran};

use crate::request::{Answer, Request};
use graphs::source::Source;
use languages::step::Step;
use queries::Query;

// Makes one request; a trace writes from the front of the steps.
fn make<S: Source>(
    query: &mut Query,
    request: &Request<S>,
    table: &mut [u32],
    steps: &mut [Step],
) -> Answer
    ensures { Made S.Source.graph request.now query.old query.new table.old table.new steps.old steps.new result }
{
    match request {
        Request::Parse(text) => Answer::Parse(query.parse(*text)),
        Request::Evaluate(source) => Answer::Evaluate(query.evaluate(*source, table)),
        Request::Lookup { u, v } => Answer::Lookup(query.lookup(table, *u, *v)),
        Request::Next { after } => Answer::Next(query.next(table, *after)),
        Request::Tally => Answer::Tally(query.tally(table)),
        Request::Trace { u, v, room } => {
            let room = (*room).min(steps.len());
            Answer::Trace(query.trace(table, *u, *v, &mut steps[..room]))
        }
    }
}

/// Makes the requests of a new query, one after another, as many as there are places for answers, and says how many. Each trace writes its steps behind those of the traces before it.
pub fn run<S: Source>(
    requests: &[Request<S>],
    table: &mut [u32],
    steps: &mut [Step],
    answers: &mut [Answer],
) -> usize
    ensures { Ran S.Source.graph requests.now table.old table.new steps.old steps.new answers.old answers.new result }
{
    let mut query = Query::new();
    let mut written = 0;
    let made = requests.len().min(answers.len());
    // By place: of what `zip` lends a proof knows the length alone.
    for (i, request) in requests[..made].iter().enumerate() {
        answers[i] = make(&mut query, request, table, &mut steps[written..]);
        written += answers[i].steps_written();
    }
    made
}
