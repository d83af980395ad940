// Examples: what they ask, what is found, and how both print.

use queries::found::Found;
use refusals::Refusal;
use samples::ring::RING;
use std::fmt;

// What a question is asked of.
#[derive(Clone, Copy)]
pub(crate) enum Over {
    // The sheet of February and March of a year.
    FebruaryAndMarch(u16),
    // A book whose entries are linked to a ring by `a`.
    Ring,
}

#[derive(Clone, Copy)]
pub(crate) struct Question {
    pub(crate) over: Over,
    pub(crate) wording: &'static str,
}

#[derive(Clone, Copy)]
pub(crate) enum Asked {
    // How many pairs are joined.
    Tally(Question),
    // What joins a pair.
    Lookup(Question, usize, usize),
    // Whether a book file is read that has one name, of so many bytes.
    Name(u8),
}

#[derive(Clone, Copy, PartialEq, Eq)]
pub(crate) enum Finding {
    Tally(usize),
    Joined(Found),
    // The name is that in the file.
    Read,
    // The file is accepted, but not with the name in it.
    Misread,
    Refused(Refusal),
}

#[derive(Clone, Copy)]
pub(crate) struct Example {
    pub(crate) asked: Asked,
    pub(crate) wanted: Finding,
}

impl fmt::Display for Question {
    fn fmt<W: fmt::Write>(&self, f: &mut fmt::Formatter<W>) -> fmt::Result {
        match self.over {
            Over::FebruaryAndMarch(year) => {
                write!(f, "February and March {}, {}:", year, self.wording)
            }
            Over::Ring => write!(f, "ring of {}, {}:", RING, self.wording),
        }
    }
}

impl fmt::Display for Asked {
    fn fmt<W: fmt::Write>(&self, f: &mut fmt::Formatter<W>) -> fmt::Result {
        match self {
            Asked::Tally(question) => write!(f, "{}", question),
            Asked::Lookup(question, u, v) => write!(f, "{} {} to {}", question, u, v),
            Asked::Name(length) => write!(f, "a name of {} bytes:", length),
        }
    }
}

impl fmt::Display for Finding {
    fn fmt<W: fmt::Write>(&self, f: &mut fmt::Formatter<W>) -> fmt::Result {
        match self {
            Finding::Tally(count) => write!(f, "tally {}", count),
            Finding::Joined(Found::Steps(count)) => write!(f, "in {} steps", count),
            Finding::Joined(Found::Long) => f.write_str("long"),
            Finding::Joined(Found::Absent) => f.write_str("absent"),
            Finding::Read => f.write_str("read"),
            Finding::Misread => f.write_str("misread"),
            Finding::Refused(refusal) => write!(f, "{}", refusal),
        }
    }
}
