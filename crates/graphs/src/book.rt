// Books that lie in memory.
ghost use Rattle.graphs.specs.Books.{book_of};
ghost use Rattle.graphs.specs.GraphLaws.{book_lawful};

use crate::link::Link;
use crate::source::Source;
use kinds::kind::Kind;

/// A book over the caller's values and links. A link that is not sound among the entries reads as nothing.
#[derive(Clone, Copy)]
pub struct Book<'a, K: Kind> {
    pub values: &'a [K],
    pub links: &'a [Link],
}

impl<'a, K: Kind> Source for Book<'a, K> {
    ghost graph = { λ b. book_of K.eq b.values.now b.links.now };

    ghost lawful = { λ b. book_lawful K.eq K.Eq.laws b.values.now b.links.now };

    fn entries(&self) -> usize {
        self.values.len()
    }

    fn places(&self) -> usize {
        self.links.len()
    }

    fn link_at(&self, place: usize) -> Option<Link> {
        self.links.get(place)?.read_among(self.values.len())
    }

    fn same(&self, u: usize, v: usize) -> bool {
        match (self.values.get(u), self.values.get(v)) {
            (Some(x), Some(y)) => x == y,
            _ => false,
        }
    }
}
