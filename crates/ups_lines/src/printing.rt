//! Writing values and attributes as words.

ghost use Rattle.std.specs.Prelude.{◌≡◌, ◌<◌, ◌∷◌, [], ◌++◌, true, OnOk, if◌then◌else◌};
ghost use Rattle.std.specs.Io.KnownBytes.{Appends};
ghost use Rattle.ups_dataset.specs.View.{value_view};
ghost use Rattle.ups_lines.specs.Printing.{hex_digit, hex_byte, hex_word, hex_tag, is_plain, printed_byte, printed, into_item, word, words_data, words, spaced, follows_after};
ghost use Rattle.ups_lines.specs.Ways.{way_text};

use std::alloc::Allocator;
use std::io::{self, Write};
use ups_dataset::{DataSet, Element, Tag, Value};
use ups_pdu::without_padding;

/// The path from a set to what is written of it.
#[derive(Clone, Copy)]
pub enum Way<'a> {
    /// The set itself.
    Here,
    /// An item of a sequence in the set at another path. Items are counted from 1.
    Into(&'a Way<'a>, Tag, usize),
}

/// Returns the hex digit of a value.
fn digit_of(value: u8) -> u8
    requires { value < 16 }
    ensures { result ≡ hex_digit value }
{
    if value < 10 {
        b'0' + value
    } else {
        b'A' - 10 + value
    }
}

/// Returns the two hex digits of a byte.
fn hex_of(byte: u8) -> [u8; 2]
    ensures { result ≡ hex_byte byte }
{
    [digit_of(byte / 16), digit_of(byte % 16)]
}

/// Writes a number as four hex digits.
pub fn put_hex<W: Write>(writer: &mut W, number: u16) -> io::Result<()>
    ensures { OnOk result (Appends (W.contents writer.old) (W.contents writer.new) (hex_word number)) }
{
    let [high, low] = number.to_be_bytes();
    writer.write_all(&hex_of(high))?;
    writer.write_all(&hex_of(low))
}

/// Writes a tag (PS3.5 section 7.1): its group and its element.
fn put_tag<W: Write>(writer: &mut W, tag: Tag) -> io::Result<()>
    ensures { OnOk result (Appends (W.contents writer.old) (W.contents writer.new) (hex_tag tag)) }
{
    put_hex(writer, tag.group)?;
    put_hex(writer, tag.element)
}

/// Returns whether a byte is written as itself: a visible character without a special meaning in a reply.
fn is_plain(byte: u8) -> bool
    ensures { result ≡ is_plain byte }
{
    33 <= byte && byte <= 126 && !(byte == b'%' || byte == b'[' || byte == b']')
}

/// Writes a byte, as `%` and two hex digits if it can't be written as itself.
fn put_byte<W: Write>(writer: &mut W, byte: u8) -> io::Result<()>
    ensures { OnOk result (Appends (W.contents writer.old) (W.contents writer.new) (printed_byte byte)) }
{
    if is_plain(byte) {
        return writer.write_all(&[byte]);
    }
    writer.write_all(b"%")?;
    writer.write_all(&hex_of(byte))
}

/// Writes a value, without the padding at its end.
pub fn put_text<W: Write>(writer: &mut W, value: &[u8]) -> io::Result<()>
    ensures { OnOk result (Appends (W.contents writer.old) (W.contents writer.new) (printed value.now)) }
{
    let text = without_padding(value);
    for byte in text {
        put_byte(writer, *byte)?;
    }
    Ok(())
}

/// Writes the end of the path into an item: `/` for the first of a sequence, `.k/` for item k.
fn put_item<W: Write>(writer: &mut W, number: usize) -> io::Result<()>
    ensures { OnOk result (Appends (W.contents writer.old) (W.contents writer.new) (into_item number)) }
{
    if number == 1 {
        return writer.write_all(b"/");
    }
    write!(writer, ".{number}/")
}

/// Writes a path.
fn put_way<W: Write>(writer: &mut W, way: &Way<'_>) -> io::Result<()>
    ensures { OnOk result (Appends (W.contents writer.old) (W.contents writer.new) (way_text way.now)) }
{
    match way {
        Way::Here => Ok(()),
        Way::Into(outer, sequence, number) => {
            put_way(writer, outer)?;
            put_tag(writer, *sequence)?;
            put_item(writer, *number)
        }
    }
}

/// Writes a space if a word came before, and notes that the next word comes after one.
fn put_space<W: Write>(writer: &mut W, follows: &mut bool) -> io::Result<()>
    ensures text { OnOk result (Appends (W.contents writer.old) (W.contents writer.new) (if follows.old then 32 ∷ [] else [])) }
    ensures follows { OnOk result (follows.new ≡ true) }
{
    if *follows {
        writer.write_all(b" ")?;
    }
    *follows = true;
    Ok(())
}

/// Writes an attribute with bytes as its value.
fn put_attribute<W: Write>(
    writer: &mut W,
    follows: &mut bool,
    way: &Way<'_>,
    tag: Tag,
    value: &[u8],
) -> io::Result<()>
    ensures text { OnOk result (Appends (W.contents writer.old) (W.contents writer.new) (spaced follows.old (word (way_text way.now) tag value.now ∷ []))) }
    ensures follows { OnOk result (follows.new ≡ true) }
{
    put_space(writer, follows)?;
    put_way(writer, way)?;
    put_tag(writer, tag)?;
    writer.write_all(b"=")?;
    put_text(writer, value)
}

/// Writes an element: its value, or the attributes in its items.
#[cycle(printing)]
fn put_element<A: Allocator + Copy, W: Write>(
    element: &Element<A>,
    way: &Way<'_>,
    follows: &mut bool,
    writer: &mut W,
) -> io::Result<()>
    ensures text { OnOk result (Appends (W.contents writer.old) (W.contents writer.new) (spaced follows.old (words_data (way_text way.now) element.now.tag (value_view element.now.value)))) }
    ensures follows { OnOk result (follows.new ≡ follows_after follows.old (words_data (way_text way.now) element.now.tag (value_view element.now.value))) }
{
    match &element.value {
        Value::Bytes(bytes) => put_attribute(writer, follows, way, element.tag, bytes.as_slice()),
        Value::Items(sets) if sets.is_empty() => {
            put_attribute(writer, follows, way, element.tag, &[])
        }
        Value::Items(sets) => {
            for (place, set) in sets.iter().enumerate() {
                let inner = Way::Into(&*way, element.tag, place + 1);
                put_set(set, &inner, follows, writer)?;
            }
            Ok(())
        }
    }
}

/// Writes the attributes of a set.
#[cycle(printing)]
pub fn put_set<A: Allocator + Copy, W: Write>(
    set: &DataSet<A>,
    way: &Way<'_>,
    follows: &mut bool,
    writer: &mut W,
) -> io::Result<()>
    ensures text { OnOk result (Appends (W.contents writer.old) (W.contents writer.new) (spaced follows.old (words (way_text way.now) set.now))) }
    ensures follows { OnOk result (follows.new ≡ follows_after follows.old (words (way_text way.now) set.now)) }
{
    for element in set.elements() {
        put_element(element, way, follows, writer)?;
    }
    Ok(())
}
