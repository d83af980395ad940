// The program's answer to its input.
ghost use Rattle.std.specs.Prelude.{◌≡◌, ℕ};
ghost use Rattle.asking.specs.Answers.{text_length, Answered};

use crate::ask::ask;
use crate::evaluated::Evaluated;
use crate::list::list;
use crate::measure::has_room;
use crate::room::ROOM_CELLS;
use listing::lines::refusal_line;
use queries::Query;
use refusals::Refusal;

/// What the program prints: the lines of an answer, or the line of the refusal. It tells how long the text is, which lies at the front of the caller's buffer.
#[derive(Debug, Clone, Copy)]
pub enum Answer {
    Listed(usize),
    Refused(usize),
}

impl Answer {
    /// The length of the text, whichever it is.
    pub fn length(self) -> usize
        ensures { result ≡ text_length self }
    {
        match self {
            Answer::Listed(length) | Answer::Refused(length) => length,
        }
    }
}

/// Puts the lines of the answer, or the line of the refusal, at the front of a buffer. One that is too short for them is refused, which is the only error.
pub fn answer_to(input: &[u8], text: &mut [u8]) -> Result<Answer, Refusal>
    ensures { Answered input.now text.old text.new result }
{
    let mut cells = [0; ROOM_CELLS];
    let mut query = Query::new();
    match ask(&mut query, input, &mut cells) {
        Ok(entries) => {
            let evaluated = Evaluated {
                query: &query,
                cells: &cells,
                entries,
            };
            if !has_room(text, evaluated) {
                return Err(Refusal::TextTooShort);
            }
            Ok(Answer::Listed(list(text, evaluated)))
        }
        Err(refusal) => Ok(Answer::Refused(refusal_line(refusal, text)?)),
    }
}
