// The reader of a text. A function for each kind of stretch calls those for the stretches within, and leaves the parts that it has read.
// Each moves on behind what it has read, or tells where the text goes wrong.
ghost use Rattle.std.specs.Prelude.{◌≡◌, ℕ, ◌*◌, ◌<◌, ◌≤◌, length, MatchOption, MatchResult, slice_index, []};
ghost use Rattle.expressions.specs.Grammar.{most_bytes};
ghost use Rattle.expressions.specs.Reads.{Kept, Next, NoSign, SignPart, Closed, Unclosed, AtomRead, ItemRead, RunRead, ExpressionRead, ItemLost, RunLost, ExpressionLost, Whole};
ghost use Rattle.expressions.specs.Wordings.{Fails};

use crate::draft::Draft;
use crate::part::Part;

// Where a text goes wrong: no expression begins with more of it.
#[derive(Drop)]
pub(crate) struct SyntaxError {
    pub(crate) at: usize,
}

// A text, how far it is read, and the parts so far: two for each byte at most.
#[derive(Drop)]
struct Reader<'a> {
    text: &'a [u8],
    at: usize,
    draft: Draft,
    ghost short: { length text.now ≤ most_bytes },
    ghost within: { at ≤ length text.now },
    ghost room: { draft.count ≤ 2 * at },
}

impl Reader<'_> {
    ghost use Rattle.expressions.specs.Reader.{Reads};

    // The next byte, as a char.
    fn peek(&self) -> Option<char>
        ensures { MatchOption result (length self.now.text.now ≤ self.now.at) (λ c. (self.now.at < length self.now.text.now) × (c ≡ slice_index self.now.text.now self.now.at)) }
    {
        self.text.get(self.at).copied().map(char::from)
    }

    // Runs with `|` between them.
    #[cycle(reader)]
    fn expression(&mut self) -> Result<(), SyntaxError>
        ensures text { self.new.text.now ≡ self.old.text.now }
        ensures read { Reads ExpressionRead ExpressionLost self.old self.new result }
    {
        self.run()?;
        while let Some('|') = self.peek() {
            let left = self.draft.last();
            self.at += 1;
            self.run()?;
            self.draft.push(Part::Either { left });
        }
        Ok(())
    }

    // Items side by side. This, `item` and `atom` are inlined, so that `expression` alone calls itself, in place of four functions that call each other.
    #[inline(always)]
    #[cycle(reader)]
    fn run(&mut self) -> Result<(), SyntaxError>
        ensures text { self.new.text.now ≡ self.old.text.now }
        ensures read { Reads RunRead RunLost self.old self.new result }
    {
        self.item()?;
        while let Some('a'..='z' | '0' | '(') = self.peek() {
            let left = self.draft.last();
            self.item()?;
            self.draft.push(Part::Join { left });
        }
        Ok(())
    }

    // An atom, and the signs behind it.
    #[inline(always)]
    #[cycle(reader)]
    fn item(&mut self) -> Result<(), SyntaxError>
        ensures text { self.new.text.now ≡ self.old.text.now }
        ensures read { Reads ItemRead ItemLost self.old self.new result }
    {
        self.atom()?;
        while let Some(sign) = self.sign() {
            self.at += 1;
            self.draft.push(sign);
        }
        Ok(())
    }

    // The part of the sign that comes next.
    fn sign(&self) -> Option<Part>
        ensures { MatchOption result (Next self.now.text.now self.now.at NoSign) (λ x. (self.now.at < length self.now.text.now) × SignPart (slice_index self.now.text.now self.now.at) x) }
    {
        match self.peek()? {
            '+' => Some(Part::Plus),
            '*' => Some(Part::Star),
            '=' => Some(Part::Same),
            '~' => Some(Part::Differ),
            _ => None,
        }
    }

    // One letter, `0`, or what stands in brackets.
    #[inline(always)]
    #[cycle(reader)]
    fn atom(&mut self) -> Result<(), SyntaxError>
        ensures text { self.new.text.now ≡ self.old.text.now }
        ensures read { Reads AtomRead ItemLost self.old self.new result }
    {
        match self.peek() {
            Some('0') => {
                self.at += 1;
                self.draft.push(Part::Epsilon);
                Ok(())
            }
            Some('(') => {
                self.at += 1;
                self.expression()?;
                self.closing()
            }
            Some(letter @ 'a'..='z') => {
                self.at += 1;
                self.draft.push(Part::Letter(letter as u8));
                Ok(())
            }
            _ => Err(SyntaxError { at: self.at }),
        }
    }

    // The bracket that closes.
    fn closing(&mut self) -> Result<(), SyntaxError>
        ensures text { self.new.text.now ≡ self.old.text.now }
        ensures draft { self.new.draft ≡ self.old.draft }
        ensures read { MatchResult result (λ _. Closed self.old.text.now self.old.at self.new.at) (λ e. Unclosed self.old.text.now self.old.at e.at) }
    {
        if self.peek() != Some(')') {
            return Err(SyntaxError { at: self.at });
        }
        self.at += 1;
        Ok(())
    }
}

// The parts of a whole text.
pub(crate) fn read(text: &[u8]) -> Result<Draft, SyntaxError>
    requires { length text.now ≤ most_bytes }
    ensures { MatchResult result (Whole text.now) (λ e. Fails text.now e.at) }
{
    let mut reader = Reader {
        text,
        at: 0,
        draft: Draft::new(),
    };
    reader.expression()?;
    if reader.at < text.len() {
        return Err(SyntaxError { at: reader.at });
    }
    Ok(reader.draft)
}
