// How the program fails.
ghost use Rattle.std.specs.Prelude.{◌≡◌};

use std::io;

/// Why a run does not end well.
#[derive(Debug, Drop)]
pub enum Failure {
    /// The input is refused, and the line of the refusal is written.
    Refused,
    /// The reader or the writer failed, or memory was wanting.
    Stopped(io::Error),
}

impl From<io::Error> for Failure {
    ghost use Rattle.pairs.specs.declared.failure.Failure.TheVariants.{Stopped};

    ghost from_gives = { λ error failure. failure ≡ Stopped error };

    fn from(error: io::Error) -> Failure {
        Failure::Stopped(error)
    }
}
