//! Bytes with places.
ghost use Rattle.std.specs.Prelude.{◌≡◌, ◌<◌, List, ℕ};
ghost use Rattle.std.specs.Borrow.{sem, Lends, Array};
ghost use Rattle.bx_text.specs.Lending.{overwritten};
ghost use Rattle.bx_text.specs.contracts.owned.pieces.Pieces.{the_row};
ghost use Rattle.bx_text.specs.contracts.owned.pieces.Piece.{the_row as piece_row};

use crate::Bytes;
use std::alloc::{Allocator, Global};
use std::marker::Model;

/// Bytes, and the address of the first of them.
#[derive(Drop)]
pub struct Piece<A: Allocator = Global> {
    /// The address of the first byte.
    pub at: u64,
    /// The bytes at `at` and the addresses behind it. There may be none.
    pub bytes: Bytes<A>,
}

/// A list of pieces.
#[derive(Drop)]
pub struct Pieces<A: Allocator = Global> {
    items: Vec<Piece<A>, A>,
}

impl<A: Allocator> Model for Pieces<A> {
    ghost use Rattle.std.specs.Prelude.{List, ℕ};
    ghost use Rattle.bx_text.specs.declared.owned.pieces.Piece.{Piece};

    ghost Value = { List (Piece A) };

    ghost view = { λ p. p.items.items };
}

impl<A: Allocator> Pieces<A> {
    /// The pieces of the vector in their order, which need not rise and may overlap.
    pub fn from_vec(items: Vec<Piece<A>, A>) -> Self
        ensures { result ≡ items.items }
    {
        Pieces { items }
    }

    /// All the pieces, in the order in which they were given.
    pub fn as_slice(&self) -> &[Piece<A>]
        ensures { result.now ≡ self.now }
    {
        self.items.as_slice()
    }

    /// What is written through it then stands in the list.
    pub fn as_mut_slice(&mut self) -> &mut [Piece<A>]
        ensures* writes_back { sem 𝓛 (Lends (the_row A.row A.Allocator) (Array (piece_row A.row A.Allocator) 0) self.entry result (overwritten self.old)) }
        ensures value { result.now ≡ self.old }
    {
        self.items.as_mut_slice()
    }
}
