//! The path of an attribute: in the data set itself, or in an item of a sequence, at any depth (PS3.5 section 7.5).

ghost use Rattle.std.specs.Prelude.{◌<◌, length};
ghost use Rattle.std.specs.Option.{IfSome};

use crate::limits::MAX_ITEMS;
use crate::words::{number_of, tag_of};
use ups_dataset::Tag;

/// A part of a path: an element, and the number of its item in which the path continues, counted from 1, or None if the
/// path ends at the element.
#[derive(Clone, Copy, PartialEq, Eq, PartialOrd, Ord)]
pub(crate) struct PathPart {
    pub tag: Tag,
    pub item: Option<u32>,
}

impl PathPart {
    /// Returns whether another part is of the same element, and in the same item if this one is in an item.
    fn covers(self, other: PathPart) -> bool {
        self == other || self.item.is_none() && self.tag == other.tag
    }
}

/// Reads the number of an item, up to the slash after it, and returns it with what follows.
fn item_at(text: &[u8]) -> Option<(u32, &[u8])>
    ensures { IfSome result (λ x. length x.1.now < length text.now) }
{
    let end = text.iter().position(|byte| *byte == b'/')?;
    let number = u32::try_from(number_of(&text[..end])?).ok()?;
    if number == 0 || number > MAX_ITEMS {
        return None;
    }
    Some((number, &text[end + 1..]))
}

/// Reads the first part of a path, and returns it with what follows: nothing after the last part.
fn part_at(text: &[u8]) -> Option<(PathPart, &[u8])>
    ensures { IfSome result (λ x. length x.1.now < length text.now) }
{
    let (digits, behind) = text.split_at_checked(8)?;
    let tag = tag_of(digits)?;
    match behind {
        [] => Some((PathPart { tag, item: None }, behind)),
        [b'/', rest @ ..] => Some((PathPart { tag, item: Some(1) }, rest)),
        [b'.', number @ ..] => {
            let (item, rest) = item_at(number)?;
            Some((
                PathPart {
                    tag,
                    item: Some(item),
                },
                rest,
            ))
        }
        _ => None,
    }
}

/// A path: `ggggeeee`, after one `ggggeeee/` (the first item) or `ggggeeee.k/` (item k) for each surrounding sequence.
/// It iterates over its parts, from the outermost one.
#[derive(Clone, Copy)]
pub(crate) struct Path<'a> {
    text: &'a [u8],
}

impl<'a> Path<'a> {
    /// Returns the path that surrounds all others: it has no parts.
    pub(crate) fn root() -> Path<'static> {
        Path { text: &[] }
    }

    /// Returns the path written as `text`, or None if that is invalid.
    pub(crate) fn of(text: &'a [u8]) -> Option<Path<'a>> {
        let mut rest = text;
        loop {
            let (part, behind) = part_at(rest)?;
            if part.item.is_none() {
                return Some(Path { text });
            }
            rest = behind;
        }
    }

    /// Returns how many of the first parts another path shares.
    pub(crate) fn shared(self, other: Path<'_>) -> usize {
        self.zip(other).take_while(|(one, two)| one == two).count()
    }

    /// Returns whether another path is this one, or leads to something inside its element.
    pub(crate) fn covers(self, other: Path<'_>) -> bool {
        self.zip(other).all(|(one, two)| one.covers(two))
    }
}

impl<'a> Iterator for Path<'a> {
    type Item = PathPart;

    ghost use Rattle.std.specs.Prelude.{length};
    ghost use Rattle.std.specs.Iterator.{at_most};

    ghost remaining = { λ p. at_most (length p.text.now) };

    fn next(&mut self) -> Option<PathPart> {
        let (part, rest) = part_at(self.text)?;
        self.text = rest;
        Some(part)
    }
}
