//! Bytes on the heap, which contracts see as a list.

ghost use Rattle.std.specs.Prelude.{◌≡◌, ◌↔◌, [], length, IfOk, IsTrue};

use std::alloc::{AllocError, Allocator};
use std::marker::Model;

/// Bytes on the heap. Contracts see them as a list.
#[derive(Drop)]
pub struct Bytes<A: Allocator + Copy> {
    bytes: Vec<u8, A>,
}

impl<A: Allocator + Copy> Model for Bytes<A> {
    ghost use Rattle.std.specs.Prelude.{List, ℕ};

    ghost Value = { List ℕ };

    ghost view = { λ b. b.bytes.items };
}

impl<A: Allocator + Copy> Bytes<A> {
    /// Wraps a vector, without allocating memory.
    pub fn from_vec(bytes: Vec<u8, A>) -> Bytes<A>
        ensures { result ≡ bytes.items }
    {
        Bytes { bytes }
    }

    /// Returns the vector, without allocating memory.
    pub fn into_vec(self) -> Vec<u8, A>
        ensures { result.items ≡ self }
    {
        let Bytes { bytes } = self;
        bytes
    }

    /// Copies bytes to the heap.
    pub fn copy_of(alloc: A, bytes: &[u8]) -> Result<Bytes<A>, AllocError>
        ensures { IfOk result (λ b. b ≡ bytes.now) }
    {
        Ok(Bytes {
            bytes: Vec::from_slice(alloc, bytes)?,
        })
    }

    /// Returns the bytes as a slice.
    pub fn as_slice(&self) -> &[u8]
        ensures { result.now ≡ self.now }
    {
        self.bytes.as_slice()
    }

    /// Returns the number of bytes.
    pub fn len(&self) -> usize
        ensures { result ≡ length self.now }
    {
        self.bytes.len()
    }

    /// Returns whether there are no bytes.
    pub fn is_empty(&self) -> bool
        ensures { IsTrue result ↔ (self.now ≡ []) }
    {
        self.bytes.is_empty()
    }
}
