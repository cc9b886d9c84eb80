//! Data element tags.

ghost use Rattle.std.specs.Prelude.{◌≡◌, ◌≢◌, ◌↔◌, ◌++◌, ◌<◌, length, IsTrue, MatchOption, OnOk};
ghost use Rattle.ups_dataset.specs.Tag.{number, tag_bytes, is_mark, is_group_length, item_tag, item_delimitation, sequence_delimitation};

use std::alloc::{AllocError, Allocator};
use ups_pdu::le_u16_at;

/// A data element tag (PS3.5 section 7.1): a group and an element in it. Tags are ordered by group, then element.
#[derive(Clone, Copy, Debug, PartialEq, Eq, PartialOrd, Ord)]
pub struct Tag {
    /// The group number.
    pub group: u16,
    /// The element number in the group.
    pub element: u16,
}

/// The tag of an item of a sequence (PS3.5 section 7.5).
pub const ITEM: Tag = Tag {
    group: 0xfffe,
    element: 0xe000,
};

/// The tag of the end of an item of undefined length (PS3.5 section 7.5).
pub const ITEM_DELIMITATION: Tag = Tag {
    group: 0xfffe,
    element: 0xe00d,
};

/// The tag of the end of a sequence of undefined length (PS3.5 section 7.5).
pub const SEQUENCE_DELIMITATION: Tag = Tag {
    group: 0xfffe,
    element: 0xe0dd,
};

impl Tag {
    /// Returns the group and the element as one number, by which tags are ordered.
    pub fn number(self) -> u32
        ensures { result ≡ number self }
    {
        65536 * u32::from(self.group) + u32::from(self.element)
    }

    /// Returns whether the tag is that of an item or of an end: group FFFE (PS3.5 section 7.5).
    pub fn is_mark(self) -> bool
        ensures { result ≡ is_mark self }
    {
        self.group == 0xfffe
    }

    /// Returns whether the tag is that of a group length: (gggg,0000) (PS3.5 section 7.2).
    pub fn is_group_length(self) -> bool
        ensures { result ≡ is_group_length self }
    {
        self.element == 0
    }

    /// Reads the tag in the first four bytes, and returns it with the rest.
    pub fn at(bytes: &[u8]) -> Option<(Tag, &[u8])>
        ensures { MatchOption result (length bytes.now < 4) (λ x. bytes.now ≡ tag_bytes x.0 ++ x.1.now) }
    {
        let (group, after) = le_u16_at(bytes)?;
        let (element, rest) = le_u16_at(after)?;
        Some((Tag { group, element }, rest))
    }

    /// Appends the four bytes of the tag.
    pub fn put<A: Allocator + Copy>(self, out: &mut Vec<u8, A>) -> Result<(), AllocError>
        ensures { OnOk result (out.new.items ≡ out.old.items ++ tag_bytes self) }
    {
        let [group, high_group] = self.group.to_le_bytes();
        let [element, high_element] = self.element.to_le_bytes();
        out.extend_from_slice(&[group, high_group, element, high_element])
    }
}

/// Does nothing at run time: its contract tells a proof that the tags of items and of ends are those of PS3.5 section
/// 7.5.
pub fn the_marks_are_those_of_the_standard()
    ensures item { ITEM ≡ item_tag }
    ensures item_end { ITEM_DELIMITATION ≡ item_delimitation }
    ensures sequence_end { SEQUENCE_DELIMITATION ≡ sequence_delimitation }
{}
