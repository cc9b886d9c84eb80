//! Lists of tags on the heap.

ghost use Rattle.std.specs.Prelude.{◌≡◌, []};

use std::alloc::Allocator;
use std::marker::Model;
use ups_dataset::Tag;

/// Tags, as in an Attribute Identifier List (PS3.7 section 10.1.2.1.6). A contract sees them as a list.
#[derive(Drop)]
pub struct Tags<A: Allocator + Copy> {
    tags: Vec<Tag, A>,
}

impl<A: Allocator + Copy> Model for Tags<A> {
    ghost use Rattle.std.specs.Prelude.{List};
    ghost use Rattle.ups_dataset.specs.declared.tag.Tag.{Tag};

    ghost Value = { List Tag };

    ghost view = { λ t. t.tags.items };
}

impl<A: Allocator + Copy> Tags<A> {
    /// Returns a list without tags. It takes no memory.
    pub fn new(alloc: A) -> Tags<A>
        ensures { result ≡ [] }
    {
        Tags {
            tags: Vec::new(alloc),
        }
    }

    /// Returns the tags of a vector. It takes no memory.
    pub fn from_vec(tags: Vec<Tag, A>) -> Tags<A>
        ensures { result ≡ tags.items }
    {
        Tags { tags }
    }

    /// Returns the tags as a slice.
    pub fn as_slice(&self) -> &[Tag]
        ensures { result.now ≡ self.now }
    {
        self.tags.as_slice()
    }
}
