//! Replacing the posts of values by those of other values. The posts of both are left alone.

ghost use Rattle.std.specs.Prelude.{◌≡◌, ◌≢◌, ◌≤◌, ◌<◌, ◌+◌, ◌⊎◌, ℕ, List, length, map, false, Contains, IsTrue};
ghost use Rattle.ups_dataset.specs.declared.tag.Tag.{Tag};
ghost use Rattle.ups_index.specs.Kept.{text_view};
ghost use Rattle.ups_index.specs.Numbers.{text_number};
ghost use Rattle.ups_index.specs.Posts.{post, KeepsEach, KeepsOthers, KeepsTexts, HasTexts, HasStart};

use crate::numbers::text_number;
use crate::posts::Posts;
use crate::slots::{put_start, put_texts, take_start, take_texts};
use crate::values::{StoredText, has_text, is_text};
use std::alloc::Allocator;
use ups_dataset::Tag;

/// The maximum number of texts of which each is compared with each other; more have all their posts replaced, in a time
/// that grows with their number, not with its square.
const FEW: usize = 16;

/// Returns whether a text is one of `texts`.
fn is_among<A: Allocator + Copy>(texts: &[StoredText<A>], stored: &StoredText<A>) -> bool
    ensures { IsTrue result → Contains (map text_view texts.now) (text_view stored.now) }
{
    has_text(texts, stored.tag, stored.text.as_slice())
}

/// Returns whether a text is the one of `texts` at an index.
fn is_at<A: Allocator + Copy>(texts: &[StoredText<A>], index: usize, stored: &StoredText<A>) -> bool
    ensures { IsTrue result → Contains (map text_view texts.now) (text_view stored.now) }
{
    if index >= texts.len() {
        return false;
    }
    is_text(&texts[index], stored.tag, stored.text.as_slice())
}

/// Returns whether a text has a number, which is that of a text under `tag`.
fn has_this_number<A: Allocator + Copy>(stored: &StoredText<A>, tag: Tag, number: u64) -> bool
    requires { (text : List ℕ) × (number ≡ text_number tag text) }
    ensures { result ≡ false → text_number stored.now.tag stored.now.text ≢ number }
{
    stored.tag.number() == tag.number() && text_number(stored.tag, stored.text.as_slice()) == number
}

/// Returns whether one of the texts has a number, which is that of a text under `tag`.
fn has_number<A: Allocator + Copy>(texts: &[StoredText<A>], tag: Tag, number: u64) -> bool
    requires { (text : List ℕ) × (number ≡ text_number tag text) }
    ensures { result ≡ false → (stored : Tag × List ℕ) → Contains (map text_view texts.now) stored → text_number stored.0 stored.1 ≢ number }
{
    for stored in texts {
        if has_this_number(stored, tag, number) {
            return true;
        }
    }
    false
}

/// Removes the post of a text at a place, unless one of the other texts there has it too.
fn drop_text<A: Allocator + Copy>(
    table: &mut Posts<A>,
    others: &[StoredText<A>],
    stored: &StoredText<A>,
    place: u32,
)
    ensures keeps { KeepsOthers place table.old.posts table.new.posts }
    ensures spares { KeepsTexts (map text_view others.now) place table.old.posts table.new.posts }
    ensures room { table.old.room ≤ table.new.room }
{
    let number = text_number(stored.tag, stored.text.as_slice());
    if has_number(others, stored.tag, number) {
        return;
    }
    table.take(number, place);
}

/// Removes the post of the text at an index, if there is one, as `drop_text` does.
fn drop_at<A: Allocator + Copy>(
    table: &mut Posts<A>,
    others: &[StoredText<A>],
    texts: &[StoredText<A>],
    index: usize,
    place: u32,
)
    ensures keeps { KeepsOthers place table.old.posts table.new.posts }
    ensures spares { KeepsTexts (map text_view others.now) place table.old.posts table.new.posts }
    ensures room { table.old.room ≤ table.new.room }
{
    if index >= texts.len() {
        return;
    }
    drop_text(table, others, &texts[index], place);
}

/// Removes the posts of texts at a place, except those that one of the other texts there has too.
fn drop_texts<A: Allocator + Copy>(
    table: &mut Posts<A>,
    others: &[StoredText<A>],
    texts: &[StoredText<A>],
    place: u32,
)
    ensures keeps { KeepsOthers place table.old.posts table.new.posts }
    ensures spares { KeepsTexts (map text_view others.now) place table.old.posts table.new.posts }
    ensures room { table.old.room ≤ table.new.room }
{
    for stored in texts {
        drop_text(table, others, stored, place);
    }
}

/// Removes the posts of those texts at a place that stand behind the last index of the others.
fn drop_behind<A: Allocator + Copy>(
    table: &mut Posts<A>,
    others: &[StoredText<A>],
    texts: &[StoredText<A>],
    place: u32,
)
    ensures keeps { KeepsOthers place table.old.posts table.new.posts }
    ensures spares { KeepsTexts (map text_view others.now) place table.old.posts table.new.posts }
    ensures room { table.old.room ≤ table.new.room }
{
    if texts.len() <= others.len() {
        return;
    }
    drop_texts(table, others, &texts[others.len()..], place);
}

/// Adds the post of a text at a place, unless it is one of `others`, whose posts are there already.
fn add_text<A: Allocator + Copy>(
    table: &mut Posts<A>,
    others: &[StoredText<A>],
    stored: &StoredText<A>,
    place: u32,
)
    requires { 0 < table.old.room }
    ensures has { Contains (map text_view others.now) (text_view stored.now) ⊎ Contains table.new.posts (post (text_number stored.now.tag stored.now.text) place) }
    ensures keeps { KeepsEach table.old.posts table.new.posts }
    ensures room { table.old.room ≤ table.new.room + 1 }
{
    if is_among(others, stored) {
        return;
    }
    table.put(text_number(stored.tag, stored.text.as_slice()), place);
}

/// Replaces the post of the old text at an index by that of the text that is there now. Mostly they are the same text.
fn exchange_text<A: Allocator + Copy>(
    table: &mut Posts<A>,
    old: &[StoredText<A>],
    new: &[StoredText<A>],
    index: usize,
    stored: &StoredText<A>,
    place: u32,
)
    requires { 0 < table.old.room }
    ensures has { Contains (map text_view old.now) (text_view stored.now) ⊎ Contains table.new.posts (post (text_number stored.now.tag stored.now.text) place) }
    ensures keeps { KeepsOthers place table.old.posts table.new.posts }
    ensures spares { KeepsTexts (map text_view new.now) place table.old.posts table.new.posts }
    ensures room { table.old.room ≤ table.new.room + 1 }
{
    if is_at(old, index, stored) {
        return;
    }
    drop_at(table, new, old, index, place);
    add_text(table, old, stored, place);
}

/// Replaces the posts of old texts at a place by those of the texts at the same indexes. The posts of the texts among
/// both are there already.
fn exchange_each<A: Allocator + Copy>(
    table: &mut Posts<A>,
    old: &[StoredText<A>],
    new: &[StoredText<A>],
    place: u32,
)
    requires { length new.now ≤ table.old.room }
    ensures has { (stored : Tag × List ℕ) → Contains (map text_view new.now) stored → Contains (map text_view old.now) stored ⊎ Contains table.new.posts (post (text_number stored.0 stored.1) place) }
    ensures keeps { KeepsOthers place table.old.posts table.new.posts }
    ensures spares { KeepsTexts (map text_view new.now) place table.old.posts table.new.posts }
    ensures room { table.old.room ≤ table.new.room + length new.now }
{
    for (index, stored) in new.iter().enumerate() {
        exchange_text(table, old, new, index, stored, place);
    }
}

/// Replaces the posts of texts at a place by those of others.
pub(crate) fn exchange_texts<A: Allocator + Copy>(
    table: &mut Posts<A>,
    old: &[StoredText<A>],
    new: &[StoredText<A>],
    place: u32,
)
    requires posted { HasTexts (map text_view old.now) place table.old.posts }
    requires room { length new.now ≤ table.old.room }
    ensures has { HasTexts (map text_view new.now) place table.new.posts }
    ensures keeps { KeepsOthers place table.old.posts table.new.posts }
    ensures room { table.old.room ≤ table.new.room + length new.now }
{
    if old.len().max(new.len()) > FEW {
        take_texts(table, old, place);
        put_texts(table, new, place);
        return;
    }
    drop_behind(table, new, old, place);
    exchange_each(table, old, new, place);
}

/// Replaces the post of a start at a place by that of another.
pub(crate) fn exchange_start<A: Allocator + Copy>(
    table: &mut Posts<A>,
    old: Option<i64>,
    new: Option<i64>,
    place: u32,
)
    requires posted { HasStart old place table.old.posts }
    requires room { 0 < table.old.room }
    ensures has { HasStart new place table.new.posts }
    ensures keeps { KeepsOthers place table.old.posts table.new.posts }
    ensures room { table.old.room ≤ table.new.room + 1 }
{
    if old == new {
        return;
    }
    take_start(table, old, place);
    put_start(table, new, place);
}
