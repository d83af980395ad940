// Layers: sources made of other sources, of any type, which they hold.
// Each passes three questions on in a line. One impl over a trait of layers would need members for the source below and for what becomes of a link, and two laws.
ghost use Rattle.graphs.specs.GraphLaws.{reversed_lawful, without_lawful};
ghost use Rattle.graphs.specs.Layers.{reversed, without};

use crate::link::Link;
use crate::source::Source;

/// The source below, where each link leads the other way.
#[derive(Clone, Copy)]
pub struct Reversed<S: Source> {
    pub below: S,
}

impl<S: Source> Source for Reversed<S> {
    ghost graph = { λ s. reversed (S.graph s.below) };

    ghost lawful = { λ s. reversed_lawful (S.graph s.below) (S.lawful s.below) };

    fn entries(&self) -> usize {
        self.below.entries()
    }

    fn places(&self) -> usize {
        self.below.places()
    }

    fn link_at(&self, place: usize) -> Option<Link> {
        self.below.link_at(place).map(Link::turned)
    }

    fn same(&self, u: usize, v: usize) -> bool {
        self.below.same(u, v)
    }
}

/// The source below, where the places of one letter hold nothing.
#[derive(Clone, Copy)]
pub struct WithoutLetter<S: Source> {
    pub below: S,
    pub letter: u8,
}

impl<S: Source> Source for WithoutLetter<S> {
    ghost graph = { λ s. without s.letter (S.graph s.below) };

    ghost lawful = { λ s. without_lawful s.letter (S.graph s.below) (S.lawful s.below) };

    fn entries(&self) -> usize {
        self.below.entries()
    }

    fn places(&self) -> usize {
        self.below.places()
    }

    fn link_at(&self, place: usize) -> Option<Link> {
        self.below.link_at(place)?.unless(self.letter)
    }

    fn same(&self, u: usize, v: usize) -> bool {
        self.below.same(u, v)
    }
}
