// Links between numbered entries.
ghost use Rattle.std.specs.Prelude.{◌≡◌};
ghost use Rattle.graphs.specs.Links.{sound, read_among, turned, unless};

/// A link from one entry to another, with a letter that says how the second was made from the first.
#[derive(Clone, Copy, Default, PartialEq, Eq, Debug)]
pub struct Link {
    pub from: usize,
    pub letter: u8,
    pub to: usize,
}

impl Link {
    /// Whether the link can stand among so many entries; one that cannot reads as nothing.
    pub fn is_sound(self, entries: usize) -> bool
        ensures { result ≡ sound entries self }
    {
        matches!(self.letter, b'a'..=b'z') && self.from < entries && self.to < entries
    }

    /// The link as it reads among so many entries.
    pub fn read_among(self, entries: usize) -> Option<Link>
        ensures { result ≡ read_among entries self }
    {
        self.is_sound(entries).then_some(self)
    }

    /// The link with its ends exchanged.
    pub fn turned(self) -> Link
        ensures { result ≡ turned self }
    {
        Link {
            from: self.to,
            letter: self.letter,
            to: self.from,
        }
    }

    /// The link, or nothing where it has this letter.
    pub fn unless(self, letter: u8) -> Option<Link>
        ensures { result ≡ unless letter (Some self) }
    {
        (self.letter != letter).then_some(self)
    }
}
