//! Why a call is refused: one enum for the whole library, with the number and the place that each case has.
#![tactic(auto)]

ghost use Rattle.std.specs.Prelude.{◌≡◌, ℕ, Some};
ghost use Rattle.refusals.specs.Table.{number, place, refusal_text};

use std::error::Error;
use std::fmt;

/// Each case is named for what is wrong; `at` is the offset in the file of the record that is refused, or in a wording of the byte that spoils it.
#[derive(Clone, Copy, PartialEq, Eq, Debug)]
pub enum Refusal {
    InputTooLong,
    HeadingCut { at: usize },
    PayloadCut { at: usize },
    RecordMisplaced { at: usize },
    OtherValueKind { at: usize },
    LengthUnfit { at: usize },
    NoSuchDay { at: usize },
    LinkUnsound { at: usize },
    TooManyEntries { at: usize },
    TooManyLinks { at: usize },
    SheetOutOfRange,
    NotAnExpression { at: usize },
    TooManyParts,
    WordingTooLong,
    QueryBlank,
    SourceTooLarge,
    TableTooShort,
    NotEvaluated,
    NoSuchEntry,
    TableCut,
    NoPath,
    OnlyLongPaths,
    StepsTooShort,
    TextTooShort,
    TableAltered,
    BookUnwritable,
    BytesTooShort,
}

impl Refusal {
    /// The number by which users know the refusal.
    pub fn number(self) -> u8
        ensures { result ≡ number self }
    {
        match self {
            Refusal::InputTooLong => 10,
            Refusal::HeadingCut { .. } | Refusal::PayloadCut { .. } => 11,
            Refusal::RecordMisplaced { .. } | Refusal::OtherValueKind { .. } => 12,
            Refusal::LengthUnfit { .. } => 13,
            Refusal::NoSuchDay { .. } => 14,
            Refusal::LinkUnsound { .. } => 15,
            Refusal::TooManyEntries { .. } => 16,
            Refusal::TooManyLinks { .. } => 17,
            Refusal::SheetOutOfRange => 18,
            Refusal::NotAnExpression { .. } => 21,
            Refusal::TooManyParts => 22,
            Refusal::WordingTooLong => 23,
            Refusal::QueryBlank => 31,
            Refusal::SourceTooLarge => 32,
            Refusal::TableTooShort => 33,
            Refusal::NotEvaluated => 41,
            Refusal::NoSuchEntry => 42,
            Refusal::TableCut => 43,
            Refusal::NoPath => 44,
            Refusal::OnlyLongPaths => 45,
            Refusal::StepsTooShort => 46,
            Refusal::TextTooShort => 47,
            Refusal::TableAltered => 49,
            Refusal::BookUnwritable => 71,
            Refusal::BytesTooShort => 72,
        }
    }

    /// Where in its input the refusal points; 0 where there is nothing to point at.
    pub fn place(self) -> usize
        ensures { result ≡ place self }
    {
        match self {
            Refusal::HeadingCut { at }
            | Refusal::PayloadCut { at }
            | Refusal::RecordMisplaced { at }
            | Refusal::OtherValueKind { at }
            | Refusal::LengthUnfit { at }
            | Refusal::NoSuchDay { at }
            | Refusal::LinkUnsound { at }
            | Refusal::TooManyEntries { at }
            | Refusal::NotAnExpression { at }
            | Refusal::TooManyLinks { at } => at,
            // The contract's table names each case, so that none is lost here.
            _ => 0,
        }
    }
}

// Prints the number and the place, as `refused 13 at 6`.
impl fmt::Display for Refusal {
    ghost output = { λ refusal. Some (refusal_text refusal) };

    fn fmt<W: fmt::Write>(&self, f: &mut fmt::Formatter<W>) -> fmt::Result {
        write!(f, "refused {} at {}", self.number(), self.place())
    }
}

impl Error for Refusal {}
