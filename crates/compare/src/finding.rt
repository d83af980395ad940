// What the library finds where it is asked.

use crate::example::{Asked, Finding, Over, Question};
use files::read::read_book;
use graphs::book::Book;
use graphs::sheet::Sheet;
use kinds::day::Day;
use kinds::name::Name;
use queries::Query;
use refusals::Refusal;
use samples::books::NAMES;
use samples::piece::{Piece, file_of};
use samples::ring::{RING, ring};
use std::alloc::{AllocError, Global};

// So many cells the largest question takes: 16 parts, over the ring.
pub(crate) const MOST_CELLS: usize = 16 * RING * RING;

// The query of a question that is evaluated into the table.
fn evaluated(question: Question, table: &mut [u32]) -> Result<Query, Refusal> {
    let mut query = Query::new();
    query.parse(question.wording.as_bytes())?;
    match question.over {
        Over::FebruaryAndMarch(year) => query.evaluate(&Sheet::new(year, 2, 2)?, table)?,
        Over::Ring => {
            let links = ring();
            let book = Book {
                values: &[Day::default(); RING],
                links: &links,
            };
            query.evaluate(&book, table)?
        }
    }
    Ok(query)
}

fn tally(question: Question, table: &mut [u32]) -> Result<Finding, Refusal> {
    let query = evaluated(question, table)?;
    Ok(Finding::Tally(query.tally(table)?))
}

fn lookup(question: Question, u: usize, v: usize, table: &mut [u32]) -> Result<Finding, Refusal> {
    let query = evaluated(question, table)?;
    Ok(Finding::Joined(query.lookup(table, u, v)?))
}

// Whether this is the name that is read from a book file that has no more than it.
fn read_name(file: &[u8], name: &[u8]) -> Result<Finding, Refusal> {
    let mut names = [Name::default(); 1];
    read_book(file, &mut names, &mut [])?;
    Ok(if names[0].text() == name {
        Finding::Read
    } else {
        Finding::Misread
    })
}

// What the library finds. The table is for the cells of a question, and may hold anything.
pub(crate) fn find(alloc: Global, asked: Asked, table: &mut [u32]) -> Result<Finding, AllocError> {
    let found = match asked {
        Asked::Tally(question) => tally(question, table),
        Asked::Lookup(question, u, v) => lookup(question, u, v, table),
        Asked::Name(length) => {
            let name = &[b'x'; 255][..usize::from(length)];
            let file = file_of(alloc, &[Piece::Head(NAMES), Piece::Name(name)])?;
            read_name(&file, name)
        }
    };
    Ok(found.unwrap_or_else(Finding::Refused))
}
