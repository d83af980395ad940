//! Reads lines `WHAT ENTRIES NAME LINKS ROUNDS WORDING`, does so often what each says over a made book, and prints a line of sums for it: what bench/run measures.
#![tactic(auto)]

mod answering;
mod evaluating;
mod made;
mod rereading;
mod sums;

use answering::list;
use anyhow::{Context, bail};
use evaluating::evaluate;
use made::{Size, make_days, make_links, make_names};
use rereading::reread;
use std::alloc::Global;
use sums::Sums;

// What a line says.
#[derive(Drop)]
struct Case<'a> {
    what: &'a str,
    size: Size,
    rounds: usize,
    wording: &'a str,
}

fn read_case(line: &str) -> anyhow::Result<Case<'_>> {
    let (what, behind) = line.split_once(' ').context("no entries")?;
    let (entries, behind) = behind.split_once(' ').context("no name")?;
    let (name, behind) = behind.split_once(' ').context("no links")?;
    let (links, behind) = behind.split_once(' ').context("no rounds")?;
    let (rounds, wording) = behind.split_once(' ').context("no wording")?;
    let size = Size {
        entries: entries.parse::<u8>()?,
        name: name.parse::<u8>()?,
        links: links.parse::<usize>()?,
    };
    Ok(Case {
        what,
        size,
        rounds: rounds.parse::<usize>()?,
        wording,
    })
}

fn run_case(alloc: Global, case: &Case) -> anyhow::Result<Sums> {
    let wording = case.wording.as_bytes();
    let (size, rounds) = (case.size, case.rounds);
    match case.what {
        "evaluate" => evaluate(alloc, size, rounds, wording),
        "names" => {
            let mut names = make_names(alloc, size)?;
            reread(alloc, &mut names, &mut make_links(alloc, size)?, rounds)
        }
        "days" => {
            let mut days = make_days(alloc, size)?;
            reread(alloc, &mut days, &mut make_links(alloc, size)?, rounds)
        }
        "list" => list(alloc, size, rounds, wording),
        _ => bail!("nothing to do"),
    }
}

fn main(rt: HostRuntime) -> anyhow::Result<()> {
    for line in rt.lines(rt.alloc()) {
        let line = line?;
        let case = read_case(line.as_str())?;
        let sums = run_case(rt.alloc(), &case)?;
        println!(rt;
            "units {} counted {} sum {}",
            sums.units, sums.counted, sums.sum
        )?;
    }
    Ok(())
}
