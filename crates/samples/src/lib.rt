//! What the tests, the comparison and the measuring share: files put together from pieces, some books, and the ring. No part of the library.
#![tactic(auto)]

pub mod books;
pub mod piece;
pub mod ring;
