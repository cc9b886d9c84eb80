//! Encoding the attributes of a line as a data set in Explicit VR Little Endian (PS3.5 section 7 and annex A.2). A
//! reader of data sets then checks them like those of a message.

ghost use Rattle.std.specs.Prelude.{◌≡◌, ◌++◌, ℕ, List, OnOk};
ghost use Rattle.ups_dataset.specs.Written.{written_head, written_element};
ghost use Rattle.ups_pdu.specs.declared.syntax.TransferSyntax.TheVariants.{Explicit};
ghost use Rattle.ups_lines.specs.Escapes.{StandsFor};
ghost use Rattle.ups_lines.specs.Forms.{pad_of, vr_for, element_for};

use crate::attributes::LineAttribute;
use crate::fault::{LineFault, LineReason};
use crate::limits::MAX_ITEMS;
use crate::paths::{Path, PathPart};
use crate::text::Text;
use std::alloc::{AllocError, Allocator};
use std::iter::Skip;
use ups_dataset::{
    ITEM, ITEM_DELIMITATION, MAX_SHORT_LENGTH, SEQUENCE_DELIMITATION, Tag, UNDEFINED_LENGTH, Vr,
    vr_of,
};

/// Encodes a header (PS3.5 section 7.1.2).
fn put_head<A: Allocator + Copy>(
    out: &mut Vec<u8, A>,
    tag: Tag,
    vr: Vr,
    len: u32,
) -> Result<(), AllocError>
    ensures { OnOk result (out.new.items ≡ out.old.items ++ written_head Explicit tag vr len) }
{
    tag.put(out)?;
    out.extend_from_slice(&vr.letters())?;
    if vr.is_long() {
        out.extend_from_slice(&[0, 0])?;
        return out.extend_from_slice(&len.to_le_bytes());
    }
    let [low, high, ..] = len.to_le_bytes();
    out.extend_from_slice(&[low, high])
}

/// Encodes the header of an item, or a delimiter (PS3.5 section 7.5).
fn put_mark<A: Allocator + Copy>(
    out: &mut Vec<u8, A>,
    mark: Tag,
    len: u32,
) -> Result<(), AllocError> {
    mark.put(out)?;
    out.extend_from_slice(&len.to_le_bytes())
}

/// Returns the VR of `len` bytes under a tag: that of the dictionary if they can have it, or else UN (PS3.5 section
/// 6.2.2).
fn vr_for(tag: Tag, len: usize) -> Vr
    ensures { result ≡ vr_for tag len }
{
    let vr = match vr_of(tag) {
        Vr::Sq if len > 0 => Vr::Un,
        vr => vr,
    };
    if !vr.is_long() && len > MAX_SHORT_LENGTH as usize {
        return Vr::Un;
    }
    vr
}

/// Returns the byte that pads a value of odd length (PS3.5 section 6.2).
fn pad_of(vr: Vr) -> u8
    ensures { result ≡ pad_of vr }
{
    match vr {
        Vr::Ui | Vr::Un => 0,
        _ => b' ',
    }
}

/// Encodes an element with a text as its value, padded to an even length.
pub(crate) fn put_value<A: Allocator + Copy>(
    out: &mut Vec<u8, A>,
    tag: Tag,
    value: Text<'_>,
) -> Result<(), LineFault>
    ensures { (bytes : List ℕ) → StandsFor value.entry.written.now bytes → OnOk result (out.new.items ≡ out.old.items ++ written_element Explicit (element_for tag bytes)) }
{
    let len = value.len();
    let vr = vr_for(tag, len);
    let Ok(padded) = u32::try_from(len.saturating_add(len % 2)) else {
        return Err(LineFault::Malformed(LineReason::TooLong));
    };
    put_head(out, tag, vr, padded)?;
    value.put(out)?;
    if len % 2 != 0 {
        out.push(pad_of(vr))?;
    }
    Ok(())
}

/// A data set that is being encoded.
#[derive(Drop)]
struct Spelling<'a, A: Allocator + Copy> {
    out: Vec<u8, A>,
    /// The path of the last element, whose surrounding items are not ended.
    path: Path<'a>,
    /// The number of items.
    items: u32,
}

impl<'a, A: Allocator + Copy> Spelling<'a, A> {
    fn new(alloc: A) -> Spelling<'a, A> {
        Spelling {
            out: Vec::new(alloc),
            path: Path::root(),
            items: 0,
        }
    }

    /// Begins an item, or encodes an empty one.
    ///
    /// Errors: TooManyItems; lack of memory.
    fn item(&mut self, len: u32) -> Result<(), LineFault> {
        if self.items >= MAX_ITEMS {
            return Err(LineFault::Malformed(LineReason::TooManyItems));
        }
        self.items += 1;
        put_mark(&mut self.out, ITEM, len)?;
        Ok(())
    }

    /// Begins the item `number`, after encoding the items between it and the item `before` as empty ones.
    fn begin_item(&mut self, before: u32, number: u32) -> Result<(), LineFault> {
        for _ in before.saturating_add(1)..number {
            self.item(0)?;
        }
        self.item(UNDEFINED_LENGTH)
    }

    fn end_item(&mut self) -> Result<(), LineFault> {
        put_mark(&mut self.out, ITEM_DELIMITATION, 0)?;
        Ok(())
    }

    /// Ends an item and its sequence.
    fn end_sequence(&mut self) -> Result<(), LineFault> {
        self.end_item()?;
        put_mark(&mut self.out, SEQUENCE_DELIMITATION, 0)?;
        Ok(())
    }

    /// Enters the element of a part: begins its sequence, or encodes the value if the path ends there.
    fn enter(&mut self, part: PathPart, value: Text<'_>) -> Result<(), LineFault> {
        let Some(number) = part.item else {
            return put_value(&mut self.out, part.tag, value);
        };
        put_head(&mut self.out, part.tag, Vr::Sq, UNDEFINED_LENGTH)?;
        self.begin_item(0, number)
    }

    /// Goes from one part to another in the same item, or to a later item of the same sequence.
    fn go(&mut self, from: PathPart, to: PathPart, value: Text<'_>) -> Result<(), LineFault> {
        match (from.item, to.item) {
            (Some(before), Some(number)) if from.tag == to.tag => {
                self.end_item()?;
                self.begin_item(before, number)
            }
            (Some(_), _) => {
                self.end_sequence()?;
                self.enter(to, value)
            }
            (None, _) => self.enter(to, value),
        }
    }

    /// Ends the sequences of parts that a path leaves.
    fn leave(&mut self, left: Skip<Path<'a>>) -> Result<(), LineFault> {
        for part in left {
            if part.item.is_some() {
                self.end_sequence()?;
            }
        }
        Ok(())
    }

    /// Enters the elements of parts, one in the other.
    fn enter_all(&mut self, parts: Skip<Path<'a>>, value: Text<'_>) -> Result<(), LineFault> {
        for part in parts {
            self.enter(part, value)?;
        }
        Ok(())
    }

    /// Encodes an attribute that comes after the last one in the order of a data set.
    fn put(&mut self, attribute: &LineAttribute<'a>) -> Result<(), LineFault> {
        let shared = self.path.shared(attribute.path);
        let mut left = self.path.skip(shared);
        let mut next = attribute.path.skip(shared);
        let from = left.next();
        self.leave(left)?;
        if let Some(to) = next.next() {
            match from {
                Some(from) => self.go(from, to, attribute.value)?,
                None => self.enter(to, attribute.value)?,
            }
        }
        self.enter_all(next, attribute.value)?;
        self.path = attribute.path;
        Ok(())
    }

    /// Returns the bytes, with all delimiters.
    fn whole(mut self) -> Result<Vec<u8, A>, LineFault> {
        let path = self.path;
        self.leave(path.skip(0))?;
        let Spelling { out, .. } = self;
        Ok(out)
    }
}

/// Encodes these attributes, which are in the order of a data set.
///
/// Errors: TooManyItems if it has more than 131,072; lack of memory.
pub fn spelled<A: Allocator + Copy>(
    alloc: A,
    attributes: &[LineAttribute<'_>],
) -> Result<Vec<u8, A>, LineFault> {
    let mut spelling = Spelling::new(alloc);
    for attribute in attributes {
        if !attribute.is_replaced {
            spelling.put(attribute)?;
        }
    }
    spelling.whole()
}
