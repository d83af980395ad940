// What is asked of a query in a run, and what it answers.
ghost use Rattle.std.specs.Prelude.{◌≡◌};
ghost use Rattle.runs.specs.Requests.{steps_in};

use queries::found::Found;
use refusals::Refusal;

/// A call, with what it takes. `room` is how many steps of the buffer a trace may fill.
#[derive_where(Clone, Copy)]
pub enum Request<'a, S> {
    Parse(&'a [u8]),
    Evaluate(&'a S),
    Lookup { u: usize, v: usize },
    Next { after: Option<(usize, usize)> },
    Tally,
    Trace { u: usize, v: usize, room: usize },
}

/// What the call of the same name answered.
#[derive(Clone, Copy, PartialEq, Eq, Debug)]
pub enum Answer {
    Parse(Result<(), Refusal>),
    Evaluate(Result<(), Refusal>),
    Lookup(Result<Found, Refusal>),
    Next(Result<Option<(usize, usize)>, Refusal>),
    Tally(Result<usize, Refusal>),
    Trace(Result<usize, Refusal>),
}

impl Answer {
    /// How many steps were written: only a trace writes any.
    pub fn steps_written(&self) -> usize
        ensures { result ≡ steps_in self.now }
    {
        match self {
            Answer::Trace(Ok(count)) => *count,
            _ => 0,
        }
    }
}
