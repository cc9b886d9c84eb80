//! The bytes of a value.

ghost use Rattle.std.specs.Prelude.{◌≡◌, ◌≤◌, ◌+◌, ◌++◌, length, IfOk};

use std::alloc::{AllocError, Allocator};
use std::marker::Model;

/// The most bytes that a value holds in place.
const MAX_IN_PLACE: usize = 30;

/// At most 30 bytes, in place. Contracts see them as a list.
#[derive(Drop)]
struct FewBytes {
    bytes: [u8; 30],
    len: u8,
}

impl Model for FewBytes {
    ghost use Rattle.std.specs.Prelude.{◌≡◌, ◌≤◌, List, ℕ, length, take};

    ghost Value = { List ℕ };

    ghost view = { λ b. take b.len b.bytes };

    ghost invariant = { λ b. (b.len ≤ 30) × (length b.bytes ≡ 30) };
}

impl FewBytes {
    /// Copies bytes.
    fn copy_of(bytes: &[u8]) -> FewBytes
        requires { length bytes.now ≤ 30 }
        ensures { result ≡ bytes.now }
    {
        let mut copy = [0; 30];
        copy[..bytes.len()].copy_from_slice(bytes);
        FewBytes {
            bytes: copy,
            len: bytes.len() as u8,
        }
    }

    /// Copies bytes, followed by other bytes.
    fn joined(front: &[u8], back: &[u8]) -> FewBytes
        requires { length front.now + length back.now ≤ 30 }
        ensures { result ≡ front.now ++ back.now }
    {
        let len = front.len() + back.len();
        let mut copy = [0; 30];
        copy[..front.len()].copy_from_slice(front);
        copy[front.len()..len].copy_from_slice(back);
        FewBytes {
            bytes: copy,
            len: len as u8,
        }
    }

    /// Returns a copy. It copies the room for 30 bytes, which takes less time than only those that it holds.
    fn copy(&self) -> FewBytes
        ensures { result ≡ self.now }
    {
        FewBytes {
            bytes: self.bytes,
            len: self.len,
        }
    }

    /// Returns the bytes as a slice.
    fn as_slice(&self) -> &[u8]
        ensures { result.now ≡ self.now }
    {
        &self.bytes[..usize::from(self.len)]
    }
}

/// Copies bytes to the heap, followed by other bytes.
///
/// Errors: if memory runs out.
fn joined_on_heap<A: Allocator + Copy>(
    alloc: A,
    front: &[u8],
    back: &[u8],
) -> Result<Vec<u8, A>, AllocError>
    ensures { IfOk result (λ v. v.items ≡ front.now ++ back.now) }
{
    let mut bytes = Vec::with_capacity(alloc, front.len().saturating_add(back.len()))?;
    bytes.extend_from_slice(front)?;
    bytes.extend_from_slice(back)?;
    Ok(bytes)
}

/// Where the bytes of a value are.
#[derive(Drop)]
enum Held<A: Allocator + Copy> {
    /// In the value itself.
    InPlace(FewBytes),
    /// On the heap.
    OnHeap(Vec<u8, A>),
}

/// The bytes of a value, as they are encoded in a message. Up to 30 of them take no memory on the heap: most values are
/// that short, and to allocate takes longer than to copy. Contracts see them as a list.
pub struct ValueBytes<A: Allocator + Copy> {
    held: Held<A>,
}

impl<A: Allocator + Copy> Drop for ValueBytes<A> {
    fn drop(self) {
        let ValueBytes { held: _ } = self;
    }
}

impl<A: Allocator + Copy> Model for ValueBytes<A> {
    ghost use Rattle.std.specs.Prelude.{List, ℕ};
    ghost use Rattle.ups_dataset.specs.Bytes.{held_bytes};

    ghost Value = { List ℕ };

    ghost view = { λ b. held_bytes b.held };
}

impl<A: Allocator + Copy> ValueBytes<A> {
    ghost use Rattle.std.specs.Prelude.{◌≡◌, ◌++◌, [], length, IfOk, IfSome};

    /// Returns no bytes.
    pub fn empty() -> ValueBytes<A>
        ensures { result ≡ [] }
    {
        ValueBytes {
            held: Held::InPlace(FewBytes::copy_of(&[])),
        }
    }

    /// Copies bytes.
    ///
    /// # Errors
    ///
    /// If there are more than 30, and memory runs out.
    pub fn copy_of(alloc: A, bytes: &[u8]) -> Result<ValueBytes<A>, AllocError>
        ensures { IfOk result (λ b. b ≡ bytes.now) }
    {
        let held = if bytes.len() <= MAX_IN_PLACE {
            Held::InPlace(FewBytes::copy_of(bytes))
        } else {
            Held::OnHeap(Vec::from_slice(alloc, bytes)?)
        };
        Ok(ValueBytes { held })
    }

    /// Copies bytes, followed by other bytes.
    ///
    /// # Errors
    ///
    /// If there are more than 30, and memory runs out.
    pub fn joined(alloc: A, front: &[u8], back: &[u8]) -> Result<ValueBytes<A>, AllocError>
        ensures { IfOk result (λ b. b ≡ front.now ++ back.now) }
    {
        let is_few = front.len() <= MAX_IN_PLACE && back.len() <= MAX_IN_PLACE - front.len();
        let held = if is_few {
            Held::InPlace(FewBytes::joined(front, back))
        } else {
            Held::OnHeap(joined_on_heap(alloc, front, back)?)
        };
        Ok(ValueBytes { held })
    }

    /// Returns a copy, which takes no memory, or None if the bytes are on the heap.
    pub(crate) fn copy_in_place(&self) -> Option<ValueBytes<A>>
        ensures { IfSome result (λ b. b ≡ self.now) }
    {
        match &self.held {
            Held::InPlace(few) => Some(ValueBytes {
                held: Held::InPlace(few.copy()),
            }),
            Held::OnHeap(_) => None,
        }
    }

    /// Returns a copy.
    ///
    /// # Errors
    ///
    /// If there are more than 30 bytes, and memory runs out.
    pub(crate) fn copy(&self, alloc: A) -> Result<ValueBytes<A>, AllocError>
        ensures { IfOk result (λ b. b ≡ self.now) }
    {
        let held = match &self.held {
            Held::InPlace(few) => Held::InPlace(few.copy()),
            Held::OnHeap(bytes) => Held::OnHeap(Vec::from_slice(alloc, bytes)?),
        };
        Ok(ValueBytes { held })
    }

    /// Returns the bytes as a slice.
    pub fn as_slice(&self) -> &[u8]
        ensures { result.now ≡ self.now }
    {
        match &self.held {
            Held::InPlace(few) => few.as_slice(),
            Held::OnHeap(bytes) => bytes.as_slice(),
        }
    }

    /// Returns the number of bytes.
    pub fn len(&self) -> usize
        ensures { result ≡ length self.now }
    {
        self.as_slice().len()
    }
}
