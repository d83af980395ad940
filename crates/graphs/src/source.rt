// What it is to be a source: to mean a graph, and to answer four questions about it.
ghost use Rattle.std.specs.Prelude.{◌≡◌, ℕ, length};
ghost use Rattle.graphs.specs.Graphs.{Graph, Lawful, link_at};

use crate::link::Link;

/// A graph in some form. Its answers are those of the graph that it means, and a question changes nothing.
pub trait Source {
    // The graph that it means.
    ghost graph: { Self → Graph };

    /// How many entries there are.
    fn entries(&self) -> usize
        ensures { result ≡ (graph self.now).entries };

    /// How many places there are.
    fn places(&self) -> usize
        ensures { result ≡ length (graph self.now).places };

    /// The link at a place, or nothing; past the places there is nothing.
    fn link_at(&self, place: usize) -> Option<Link>
        ensures { result ≡ link_at (graph self.now) place };

    /// Whether two entries hold the same value; no where one of the numbers is no entry's.
    fn same(&self, u: usize, v: usize) -> bool
        ensures { result ≡ (graph self.now).same u v };

    // The graph is lawful.
    ghost lawful: { (s : Self) → Lawful (graph s) };
}

// A reference to a source is a source, so that a layer can be laid over what is only lent.
impl<S: Source> Source for &S {
    ghost graph = { λ s. S.graph s.now };

    ghost lawful = { λ s. S.lawful s.now };

    fn entries(&self) -> usize {
        (**self).entries()
    }

    fn places(&self) -> usize {
        (**self).places()
    }

    fn link_at(&self, place: usize) -> Option<Link> {
        (**self).link_at(place)
    }

    fn same(&self, u: usize, v: usize) -> bool {
        (**self).same(u, v)
    }
}
