//! Asks the library worked examples that are not proved of the definitions, compares what it finds with what it should, and prints a line for each.
#![tactic(auto)]

mod example;
mod finding;

use anyhow::ensure;
use example::{Asked, Example, Finding, Over, Question};
use finding::{MOST_CELLS, find};
use queries::found::Found;
use refusals::Refusal;

// The same day of the month, some weeks later.
const WEEKS: Question = Question {
    over: Over::FebruaryAndMarch(2023),
    wording: "(w+)=",
};

const LEAP_WEEKS: Question = Question {
    over: Over::FebruaryAndMarch(2024),
    wording: "(w+)=",
};

// Eight links further, once or more.
const EIGHTS: Question = Question {
    over: Over::Ring,
    wording: "(aaaaaaaa)+",
};

const EXAMPLES: [Example; 7] = [
    Example {
        asked: Asked::Tally(WEEKS),
        wanted: Finding::Tally(28),
    },
    Example {
        asked: Asked::Lookup(WEEKS, 0, 28),
        wanted: Finding::Joined(Found::Steps(4)),
    },
    Example {
        asked: Asked::Tally(LEAP_WEEKS),
        wanted: Finding::Tally(0),
    },
    Example {
        asked: Asked::Lookup(EIGHTS, 0, 117),
        wanted: Finding::Joined(Found::Steps(992)),
    },
    Example {
        asked: Asked::Lookup(EIGHTS, 0, 0),
        wanted: Finding::Joined(Found::Long),
    },
    Example {
        asked: Asked::Name(128),
        wanted: Finding::Read,
    },
    Example {
        asked: Asked::Name(129),
        wanted: Finding::Refused(Refusal::LengthUnfit { at: 6 }),
    },
];

// Prints what is found for an example, and tells whether it is what it should be.
fn compare(rt: HostRuntime, example: &Example, table: &mut [u32]) -> anyhow::Result<bool> {
    let found = find(rt.alloc(), example.asked, table)?;
    let agrees = found == example.wanted;
    if agrees {
        println!(rt; "{} {}", example.asked, found)?;
    } else {
        println!(rt;
            "{} {}, but should be {}",
            example.asked, found, example.wanted
        )?;
    }
    Ok(agrees)
}

// If anything else is found, the program ends with status 1.
fn main(rt: HostRuntime) -> anyhow::Result<()> {
    let mut table = vec![in rt.alloc(); 0; MOST_CELLS]?;
    let mut agreeing: usize = 0;
    for example in &EXAMPLES {
        if compare(rt, example, &mut table)? {
            agreeing += 1;
        }
    }
    println!(rt; "{} of {} as they should be", agreeing, EXAMPLES.len())?;
    ensure!(agreeing == EXAMPLES.len(), "something else is found");
    Ok(())
}
