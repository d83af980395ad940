// A question asked of the book in the program's input.
ghost use Rattle.std.specs.Prelude.{◌≡◌, ℕ, length};
ghost use Rattle.asking.specs.Input.{program_room, program_cells};
ghost use Rattle.asking.specs.Kinds.{kept_as};
ghost use Rattle.asking.specs.Tells.{WorkedAs, Worked, Asked};

use crate::input::{Input, MOST_INPUT, split, value_kind};
use crate::room::{ROOM_ENTRIES, ROOM_LINKS};
use files::read::read_book;
use graphs::book::Book;
use graphs::link::Link;
use kinds::day::Day;
use kinds::kind::{Kind, Payload};
use kinds::name::Name;
use queries::Query;
use refusals::Refusal;

// Evaluates a query over a book of one kind of value, and tells how many entries it has.
// The caller makes the array of entries: of an array of any kind a proof does not know that it fits memory.
fn work_as<K: Kind>(
    query: &mut Query,
    file: &[u8],
    entries: &mut [K],
    cells: &mut [u32],
) -> Result<usize, Refusal>
    requires { length entries.old ≡ ROOM_ENTRIES }
    ensures { WorkedAs (kept_as K.Payload.Payload.shape K.Payload.Payload.encoded K.eq) program_room file.now query.old cells.old query.new cells.new result }
{
    let mut links = [Link::default(); ROOM_LINKS];
    let read = read_book(file, entries, &mut links)?;
    let book = Book {
        values: &entries[..read.entries],
        links: &links[..read.links],
    };
    query.evaluate(&book, cells)?;
    Ok(read.entries)
}

// The same of a book of the kind of value that its head tells.
fn work(query: &mut Query, file: &[u8], cells: &mut [u32]) -> Result<usize, Refusal>
    ensures { Worked file.now query.old cells.old query.new cells.new result }
{
    match value_kind(file) {
        Day::NUMBER => work_as(query, file, &mut [Day::default(); ROOM_ENTRIES], cells),
        _ => work_as(query, file, &mut [Name::default(); ROOM_ENTRIES], cells),
    }
}

// Parses the wording in the program's input, evaluates it over the book there, and tells how many entries the book has.
pub(crate) fn ask(query: &mut Query, input: &[u8], cells: &mut [u32]) -> Result<usize, Refusal>
    requires { length cells.old ≡ program_cells }
    ensures { Asked input.now cells.old query.new cells.new result }
{
    if input.len() > MOST_INPUT {
        return Err(Refusal::InputTooLong);
    }
    let Input { wording, book_file } = split(input);
    query.parse(wording)?;
    work(query, book_file, cells)
}
