//! The values stored of a step.

ghost use Rattle.std.specs.Prelude.{◌≡◌, ◌+◌, ◌++◌, ◌<◌, ◌^◌, ◌&&◌, length, map, filter, not, IfOk, OnOk, Some, ℕ, List};
ghost use Rattle.std.specs.List.{list_any, slice_split};
ghost use Rattle.ups_pdu.specs.Padding.{is_nil, without_padding};
ghost use Rattle.ups_dataset.specs.Data.{elements_of, items_of, items};
ghost use Rattle.ups_match.specs.Class.{first_view, start_of};
ghost use Rattle.ups_match.specs.Matching.{value_at};
ghost use Rattle.ups_match.specs.Ranges.{spans};
ghost use Rattle.ups_match.specs.Values.{is_backslash};
ghost use Rattle.ups_index.specs.Kept.{text_view};
ghost use Rattle.ups_index.specs.Stored.{values_of_row, is_stored_text, has_first};

use crate::storing::{put_all, start_of};
use std::alloc::{AllocError, Allocator};
use std::marker::Model;
use ups_dataset::{DataSet, Tag, ValueBytes};
use ups_match::{First, INDEXED, Span};

/// A text under the tag by which it is looked up.
#[derive(Drop)]
pub(crate) struct StoredText<A: Allocator + Copy> {
    pub tag: Tag,
    pub text: ValueBytes<A>,
}

/// The values by which a step is found. A contract sees the texts with their tags, and the first moment of the start.
#[derive(Drop)]
pub struct Values<A: Allocator + Copy> {
    texts: Vec<StoredText<A>, A>,
    start: Option<i64>,
}

impl<A: Allocator + Copy> Model for Values<A> {
    ghost use Rattle.std.specs.Prelude.{map};
    ghost use Rattle.ups_index.specs.Stored.{RowValues};

    ghost Value = { RowValues };

    ghost use Rattle.ups_index.specs.Kept.{text_view};

    ghost view = { λ v. record { texts = map text_view v.texts.items; start = v.start } };
}

impl<A: Allocator + Copy> Values<A> {
    /// Returns the indexed values of a row. `offset` is that of a start without one, in minutes east of UTC.
    ///
    /// # Errors
    ///
    /// If memory runs out.
    pub fn of(alloc: A, row: &DataSet<A>, offset: i16) -> Result<Values<A>, AllocError>
        ensures { IfOk result (λ v. v ≡ values_of_row offset row.now) }
    {
        // most steps have one text under each tag
        let mut texts = Vec::with_capacity(alloc, INDEXED.len())?;
        put_all(alloc, &mut texts, row, &INDEXED)?;
        let start = start_of(row, offset);
        Ok(Values { texts, start })
    }

    /// Returns the texts.
    pub(crate) fn texts(&self) -> &[StoredText<A>]
        ensures { map text_view result.now ≡ self.now.texts }
    {
        self.texts.as_slice()
    }

    /// Returns the first moment of the start.
    pub(crate) fn start(&self) -> Option<i64>
        ensures { result ≡ self.now.start }
    {
        self.start
    }

    /// Returns whether the values have the first indexed key of a query.
    pub(crate) fn has(&self, first: &First<'_>) -> bool
        ensures { result ≡ has_first (first_view first.now) self.now }
    {
        match first {
            First::Value(tag, text) => has_text(self.texts(), *tag, text),
            First::Start(span) => is_within(self.start, *span),
            First::All => true,
        }
    }
}

/// Returns whether what is stored is a text under a tag.
pub(crate) fn is_text<A: Allocator + Copy>(stored: &StoredText<A>, tag: Tag, text: &[u8]) -> bool
    ensures { result ≡ is_stored_text tag text.now (text_view stored.now) }
{
    stored.tag == tag && text == stored.text.as_slice()
}

/// Returns whether a text is stored under a tag.
pub(crate) fn has_text<A: Allocator + Copy>(texts: &[StoredText<A>], tag: Tag, text: &[u8]) -> bool
    ensures { result ≡ list_any (λ stored. is_stored_text tag text.now (text_view stored)) texts.now }
{
    texts.iter().any(|stored| is_text(stored, tag, text))
}

/// Returns whether a start is in a range.
fn is_within(start: Option<i64>, span: Span) -> bool
    ensures { result ≡ spans (Some span) start }
{
    match start {
        Some(moment) => span.takes_in(moment),
        None => false,
    }
}
