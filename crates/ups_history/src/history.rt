//! The history of accepted requests, of which those that nobody asks for any more leave memory.

ghost use Rattle.std.specs.Prelude.{◌≡◌, ◌≢◌, ◌≤◌, ◌<◌, ◌+◌, ◌-◌, ◌^◌, ◌++◌, ◌∷◌, [], ℕ, true, length, drop, slice_get, min, max, MatchOption, IfSome, OnOk, IsOk};
ghost use Rattle.std.specs.Option.{option_copied};
ghost use Rattle.ups_history.specs.View.{is_in_memory};

use http_server::Log;
use indexmap::IndexMap;
use std::alloc::{AllocError, Allocator};
use std::hash::{BuildHasherDefault, FoldHasher};
use std::marker::Model;
use std::mem::replace;
use ups_life::Entry;

/// The entries that stay in memory behind the others of their time, by their places.
type Older<A> = IndexMap<u64, Entry<A>, BuildHasherDefault<FoldHasher>, A>;

/// The most entries that are set aside, and the most recent ones. At a million requests a second there are as many after
/// 100,000 years.
const MOST: usize = 1 << 62;

/// The fewest entries that are set aside at once, so that the recent ones are seldom moved.
const FEWEST: usize = 32;

/// Returns the last of `count` places, the first of which is `from`, or None if there are none.
fn last_place(from: usize, count: usize) -> Option<u64>
    requires { from + count ≤ 2 ^ 62 }
    ensures { MatchOption result (count ≡ 0) (λ place. (0 < count) × (place + 1 ≡ from + count)) }
{
    let before = count.checked_sub(1)?;
    Some((from + before) as u64)
}

/// The accepted requests, oldest first. The place of an entry is its index among all of them; the first has place 0.
///
/// The recent entries are in memory, one behind another. Those before them were set aside, and each of these is looked at
/// once: it is kept, or let go of. A contract sees all entries, whether they are in memory or not, so nothing that it
/// says of `entries` changes when one is let go of. It also sees the places of those that are in memory, and the number
/// of further entries for which there is room. Each method but `set_aside` takes, on average, a time that does not depend
/// on the length of the history.
#[derive(Drop)]
pub struct History<A: Allocator + Copy> {
    /// What was set aside, for contracts alone.
    gone: Log<Vec<Entry<A>, A>, ()>,
    /// The number of entries that were set aside.
    first: usize,
    recent: Vec<Entry<A>, A>,
    /// Entries set aside that are to be looked at, the last of them next.
    aside: Vec<Entry<A>, A>,
    /// The place of the first of these.
    aside_from: usize,
    older: Older<A>,
}

impl<A: Allocator + Copy> Model for History<A> {
    ghost use Rattle.std.specs.Prelude.{◌-◌, ◌^◌, ◌++◌, min};
    ghost use Rattle.std.specs.Vec.{vec_len, vec_capacity};
    ghost use Rattle.indexmap.specs.IndexMap.{keys};
    ghost use Rattle.ups_history.specs.Kept.{joined, places_from, KeepsHistory};
    ghost use Rattle.ups_history.specs.View.{HistoryView};

    ghost Value = { HistoryView A };

    ghost use Rattle.std.specs.Coded.{codes};
    ghost use Rattle.ups_dataset.specs.Code.{set_code};

    ghost coded = { Prim.hlevel (set_code, codes) };

    ghost view = { λ h. record { entries = joined h.gone.items ++ h.recent.items; first = h.first; kept = places_from h.aside_from h.aside.items ++ keys h.older; spare = min (vec_capacity h.recent - vec_len h.recent) (2 ^ 62 - vec_len h.recent) } };

    ghost invariant = { λ h. KeepsHistory (joined h.gone.items) h.recent.items h.aside.items h.first h.aside_from h.older.entries };
}

impl<A: Allocator + Copy> History<A> {
    /// Returns a history without entries. It takes no memory.
    pub fn new(alloc: A) -> History<A>
        ensures entries { result.entries ≡ [] }
        ensures first { result.first ≡ 0 }
        ensures kept { result.kept ≡ [] }
    {
        History {
            gone: Log::new(),
            first: 0,
            recent: Vec::new(alloc),
            aside: Vec::new(alloc),
            aside_from: 0,
            older: IndexMap::new(alloc),
        }
    }

    /// Returns the number of entries.
    pub fn len(&self) -> usize
        ensures len { result ≡ length self.now.entries }
        ensures few { result ≤ 2 ^ 63 }
    {
        self.recent.len() + self.first
    }

    /// Returns the place of the first recent entry. Each entry from there on is in memory.
    pub fn first(&self) -> usize
        ensures first { result ≡ self.now.first }
        ensures within { self.now.first ≤ length self.now.entries }
    {
        self.first
    }

    /// Returns the recent entries.
    pub fn recent(&self) -> &[Entry<A>]
        ensures { result.now ≡ drop self.now.first self.now.entries }
    {
        self.recent.as_slice()
    }

    /// Returns the entries from a place on, or None if some of them may no longer be in memory. There are none from a
    /// place behind the last entry on.
    pub fn since(&self, place: usize) -> Option<&[Entry<A>]>
        ensures { MatchOption result (place < self.now.first) (λ s. s.now ≡ drop place self.now.entries) }
    {
        if place < self.first {
            return None;
        }
        let before = (place - self.first).min(self.recent.len());
        Some(self.recent.as_slice().split_at(before).1)
    }

    /// Returns the entry at a place, or None behind the last entry.
    pub fn get(&self, place: u64) -> Option<&Entry<A>>
        requires in_memory { is_in_memory self.now place ≡ true }
        ensures entry { option_copied result ≡ slice_get self.now.entries place }
    {
        let at = place as usize;
        if at >= self.first {
            return self.recent.get(at - self.first);
        }
        if at >= self.aside_from && at - self.aside_from < self.aside.len() {
            return self.aside.get(at - self.aside_from);
        }
        self.older.get(&place)
    }

    /// Returns the number of entries in memory, at most `usize::MAX`.
    pub fn in_memory(&self) -> usize
        ensures { result ≡ min (length self.now.entries - self.now.first + length self.now.kept) (2 ^ 64 - 1) }
    {
        self.recent
            .len()
            .saturating_add(self.aside.len())
            .saturating_add(self.older.len())
    }

    /// Makes room for a further entry.
    ///
    /// # Errors
    ///
    /// If memory runs out, but never if there is room already. The history then stays the same.
    pub fn reserve(&mut self) -> Result<(), AllocError>
        ensures room { OnOk result (0 < self.new.spare) }
        ensures succeeds { 0 < self.old.spare → IsOk result }
        ensures keeps { self.old.spare ≤ self.new.spare }
        ensures entries { self.new.entries ≡ self.old.entries }
        ensures first { self.new.first ≡ self.old.first }
        ensures kept { self.new.kept ≡ self.old.kept }
    {
        if self.recent.len() >= MOST {
            return Err(AllocError);
        }
        self.recent.reserve(1)
    }

    /// Appends an entry. It uses the room of one entry, and takes no memory.
    pub fn push_reserved(&mut self, entry: Entry<A>)
        requires room { 0 < self.old.spare }
        ensures entries { self.new.entries ≡ self.old.entries ++ entry ∷ [] }
        ensures first { self.new.first ≡ self.old.first }
        ensures kept { self.new.kept ≡ self.old.kept }
        ensures spare { self.old.spare ≤ self.new.spare + 1 }
    {
        self.recent.push_reserved(entry);
    }

    /// Sets aside the recent entries before a place, or all if there is no entry at it. They stay in memory until they are
    /// looked at. If entries set aside before are still to be looked at, if these are too few to be worth it, or if memory
    /// runs out, it does nothing.
    ///
    /// It moves each recent entry from the place on. There may be less room for further entries afterwards.
    pub fn set_aside(&mut self, upto: usize)
        ensures entries { self.new.entries ≡ self.old.entries }
        ensures in_memory { (p : ℕ) → is_in_memory self.old p ≡ true → is_in_memory self.new p ≡ true }
        ensures first { self.old.first ≤ self.new.first }
        ensures upto { self.new.first ≤ max self.old.first upto }
    {
        let History {
            gone,
            first,
            recent,
            aside,
            aside_from,
            ..
        } = self;
        if !aside.is_empty() {
            return;
        }
        let room = MOST - *first;
        let count = upto.saturating_sub(*first).min(recent.len()).min(room);
        if count < FEWEST {
            return;
        }
        let Ok(behind) = recent.split_off(count) else {
            return;
        };
        let before = replace(recent, behind);
        let more = gone.and(&before, &());
        *gone = more;
        *aside_from = *first;
        *first += count;
        *aside = before;
    }

    /// Returns the place of the entry that is to be looked at next, or None if there is none.
    pub fn candidate(&self) -> Option<u64>
        ensures in_memory { IfSome result (λ p. is_in_memory self.now p ≡ true) }
    {
        last_place(self.aside_from, self.aside.len())
    }

    /// Keeps the candidate in memory, until it is let go of. It is then an older entry. Without a candidate it does nothing.
    ///
    /// # Errors
    ///
    /// If memory runs out. The history then stays the same.
    pub fn keep(&mut self) -> Result<(), AllocError>
        ensures entries { self.new.entries ≡ self.old.entries }
        ensures first { self.new.first ≡ self.old.first }
        ensures spare { self.new.spare ≡ self.old.spare }
        ensures in_memory { (p : ℕ) → is_in_memory self.old p ≡ true → is_in_memory self.new p ≡ true }
    {
        let Some(place) = last_place(self.aside_from, self.aside.len()) else {
            return Ok(());
        };
        self.older.reserve(1)?;
        let Some(entry) = self.aside.pop() else {
            return Ok(());
        };
        let Ok(_) = self.older.insert(place, entry) else {
            unreachable!();
        };
        Ok(())
    }

    /// Returns the place of the older entry at an index among them, in no order, or None behind the last one.
    pub fn kept_at(&self, index: usize) -> Option<u64>
        ensures in_memory { IfSome result (λ p. is_in_memory self.now p ≡ true) }
    {
        match self.older.get_index(index) {
            Some((place, _)) => Some(*place),
            None => None,
        }
    }

    /// Lets go of the entry at a place, if it is the candidate or an older entry.
    pub fn let_go(&mut self, place: u64)
        ensures entries { self.new.entries ≡ self.old.entries }
        ensures first { self.new.first ≡ self.old.first }
        ensures spare { self.new.spare ≡ self.old.spare }
        ensures in_memory { (p : ℕ) → is_in_memory self.old p ≡ true → p ≢ place → is_in_memory self.new p ≡ true }
    {
        if last_place(self.aside_from, self.aside.len()) == Some(place) {
            drop(self.aside.pop());
        } else {
            drop(self.older.swap_remove(&place));
        }
    }
}
