//! The attributes of a line, in the order of a data set.

ghost use Rattle.std.specs.Prelude.{IfOk};
ghost use Rattle.ups_lines.specs.Escapes.{IsText};

use crate::fault::{LineFault, LineReason};
use crate::paths::Path;
use crate::text::Text;
use crate::words::{Words, filled};
use std::alloc::{AllocError, Allocator};

/// An attribute of a line: its path and its value.
#[derive(Clone, Copy)]
pub struct LineAttribute<'a> {
    pub(crate) path: Path<'a>,
    pub(crate) value: Text<'a>,
    /// The number of attributes before it in the line.
    place: u32,
    /// Whether a later one replaces it.
    pub(crate) is_replaced: bool,
}

impl<'a> LineAttribute<'a> {
    /// Returns the attribute with this path and value.
    ///
    /// Errors: Attribute if the path is invalid; Escape.
    pub fn new(path: &'a [u8], value: &'a [u8]) -> Result<LineAttribute<'a>, LineReason>
        ensures { IfOk result (λ _. IsText value.now) }
    {
        Ok(LineAttribute {
            path: Path::of(path).ok_or(LineReason::Attribute)?,
            value: Text::of(value).ok_or(LineReason::Escape)?,
            place: 0,
            is_replaced: false,
        })
    }

    /// Returns the attribute that is written as `path=value`.
    ///
    /// Errors: Attribute; Escape.
    fn of(word: &'a [u8]) -> Result<LineAttribute<'a>, LineReason> {
        let Some(end) = word.iter().position(|byte| *byte == b'=') else {
            return Err(LineReason::Attribute);
        };
        LineAttribute::new(&word[..end], &word[end + 1..])
    }
}

/// Marks what a later value of an element replaces: its own earlier value, and those in its items.
///
/// Errors: lack of memory.
fn mark_below<A: Allocator + Copy>(
    alloc: A,
    sorted: &mut [LineAttribute<'_>],
) -> Result<(), AllocError> {
    // the values around the current attribute, each later than the one before it
    let mut round = Vec::new(alloc);
    for attribute in sorted.iter_mut() {
        leave(&mut round, attribute.path);
        match round.last() {
            Some((_, place)) if *place > attribute.place => attribute.is_replaced = true,
            _ => round.push((attribute.path, attribute.place))?,
        }
    }
    Ok(())
}

/// Drops the last paths, up to one that covers this one.
fn leave<A: Allocator + Copy>(round: &mut Vec<(Path<'_>, u32), A>, path: Path<'_>) {
    while let Some((last, _)) = round.last() {
        if last.covers(path) {
            return;
        }
        round.pop();
    }
}

/// Marks each value that is replaced by a later one of its own element, or by a later one in its items.
fn mark_above(sorted: &mut [LineAttribute<'_>]) {
    let mut behind: Option<Path<'_>> = None;
    for attribute in sorted.iter_mut().rev() {
        let path = attribute.path;
        if !attribute.is_replaced {
            attribute.is_replaced = behind.is_some_and(|other| path.covers(other));
        }
        if !attribute.is_replaced {
            behind = Some(path);
        }
    }
}

/// Appends the attributes of arguments.
fn push_arguments<'a, A: Allocator + Copy>(
    attributes: &mut Vec<LineAttribute<'a>, A>,
    arguments: &[Option<LineAttribute<'a>>],
) -> Result<(), AllocError> {
    for argument in arguments.iter().flatten() {
        attributes.push(*argument)?;
    }
    Ok(())
}

/// Appends the attribute that a word is.
///
/// Errors: EmptyWord, Attribute or Escape if the word is not an attribute; lack of memory.
fn push_word<'a, A: Allocator + Copy>(
    attributes: &mut Vec<LineAttribute<'a>, A>,
    word: &'a [u8],
) -> Result<(), LineFault> {
    let mut attribute = LineAttribute::of(filled(word)?)?;
    attribute.place = u32::try_from(attributes.len()).unwrap_or(u32::MAX);
    attributes.push(attribute)?;
    Ok(())
}

/// Appends the attributes of words.
///
/// Errors: those of `push_word`.
fn push_words<'a, A: Allocator + Copy>(
    attributes: &mut Vec<LineAttribute<'a>, A>,
    words: Words<'a>,
) -> Result<(), LineFault> {
    for word in words {
        push_word(attributes, word)?;
    }
    Ok(())
}

/// Sorts attributes into the order of a data set, those of one element into the order of the line.
fn sort(attributes: &mut [LineAttribute<'_>]) {
    attributes.sort_unstable_by(|one, two| {
        one.path.cmp(two.path).then(one.place.cmp(&two.place))
    });
}

/// Returns the attributes of arguments and of the words after them, in the order of a data set. Of two for one element
/// the later one counts, also if one is a value and the other is in an item.
///
/// Errors: EmptyWord, Attribute or Escape if a word is not an attribute; lack of memory.
pub fn attributes_of<'a, A: Allocator + Copy>(
    alloc: A,
    arguments: &[Option<LineAttribute<'a>>],
    words: Words<'a>,
) -> Result<Vec<LineAttribute<'a>, A>, LineFault> {
    let count = arguments.len().saturating_add(words.count());
    let mut attributes = Vec::with_capacity(alloc, count)?;
    push_arguments(&mut attributes, arguments)?;
    push_words(&mut attributes, words)?;
    sort(attributes.as_mut_slice());
    mark_below(alloc, attributes.as_mut_slice())?;
    mark_above(attributes.as_mut_slice());
    Ok(attributes)
}
