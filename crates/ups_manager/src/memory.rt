//! What stays in memory of the history: the recent entries, and those of events that are pending for a watcher.

ghost use Rattle.std.specs.Prelude.{◌≡◌};
ghost use Rattle.ups_tables.specs.Stands.{Stands as TablesStand};
ghost use Rattle.ups_manager.specs.Kept.{Remembers};

use std::alloc::Allocator;
use ups_history::History;
use ups_life::{Configuration, MAX_HISTORY};
use ups_tables::Tables;

/// The most entries set aside that one call lets go of or keeps, and the most of those kept for an event that it looks
/// at again.
pub const LOOKED_AT: usize = 256;

/// Looks at the entry set aside that is next: it stays if an event that is pending refers to it, and leaves otherwise.
/// Returns whether there was one, and memory for it if it stays.
fn look<A: Allocator + Copy>(
    configuration: &Configuration<A>,
    history: &mut History<A>,
    tables: &Tables<A>,
) -> bool
    requires stands { TablesStand configuration.now history.old.entries tables.now }
    requires remembers { Remembers configuration.now history.old }
    ensures history { history.new.entries ≡ history.old.entries }
    ensures remembers { Remembers configuration.now history.new }
{
    let Some(place) = history.candidate() else {
        return false;
    };
    if tables.queues.refers_to(place) {
        return history.keep().is_ok();
    }
    history.let_go(place);
    true
}

/// What became of an entry that was looked at again.
#[derive(Clone, Copy, Debug, PartialEq, Eq)]
enum LookedAt {
    /// It stays for an event.
    Stays,
    /// It has left memory.
    Left,
    /// There is none at the index.
    Nothing,
}

/// Looks again at an entry that stayed for an event: it leaves if none that is pending refers to it any more.
fn look_again<A: Allocator + Copy>(
    configuration: &Configuration<A>,
    history: &mut History<A>,
    tables: &Tables<A>,
    index: usize,
) -> LookedAt
    requires stands { TablesStand configuration.now history.old.entries tables.now }
    requires remembers { Remembers configuration.now history.old }
    ensures history { history.new.entries ≡ history.old.entries }
    ensures remembers { Remembers configuration.now history.new }
{
    let Some(place) = history.kept_at(index) else {
        return LookedAt::Nothing;
    };
    if tables.queues.refers_to(place) {
        return LookedAt::Stays;
    }
    history.let_go(place);
    LookedAt::Left
}

/// Looks at some of the entries set aside. Returns whether there may be more to look at.
fn look_at_some<A: Allocator + Copy>(
    configuration: &Configuration<A>,
    history: &mut History<A>,
    tables: &Tables<A>,
) -> bool
    requires stands { TablesStand configuration.now history.old.entries tables.now }
    requires remembers { Remembers configuration.now history.old }
    ensures history { history.new.entries ≡ history.old.entries }
    ensures remembers { Remembers configuration.now history.new }
{
    for _ in 0..LOOKED_AT {
        if !look(configuration, history, tables) {
            return false;
        }
    }
    true
}

/// Looks again at some of the entries that stayed for an event, from an index on. Returns whether any has left, and the
/// index of the next one.
fn look_at_some_again<A: Allocator + Copy>(
    configuration: &Configuration<A>,
    history: &mut History<A>,
    tables: &Tables<A>,
    from: usize,
) -> (bool, usize)
    requires stands { TablesStand configuration.now history.old.entries tables.now }
    requires remembers { Remembers configuration.now history.old }
    ensures history { history.new.entries ≡ history.old.entries }
    ensures remembers { Remembers configuration.now history.new }
{
    let mut has_left = false;
    let mut index = from;
    for _ in 0..LOOKED_AT {
        match look_again(configuration, history, tables, index) {
            LookedAt::Stays => index = index.saturating_add(1),
            LookedAt::Left => has_left = true,
            LookedAt::Nothing => index = 0,
        }
    }
    (has_left, index)
}

/// Lets entries before the one at index `upto` leave memory, if no event that is pending refers to them and the history
/// has no end: looks at some of them, and again at some that stayed, from the index `again` on. Returns whether there
/// are more to look at, or some that stayed have left, so that others may, and the index of the next one of those that
/// stayed.
pub(crate) fn let_go<A: Allocator + Copy>(
    configuration: &Configuration<A>,
    history: &mut History<A>,
    tables: &Tables<A>,
    upto: usize,
    again: usize,
) -> (bool, usize)
    requires stands { TablesStand configuration.now history.old.entries tables.now }
    requires remembers { Remembers configuration.now history.old }
    ensures history { history.new.entries ≡ history.old.entries }
    ensures remembers { Remembers configuration.now history.new }
{
    if configuration.limit() <= MAX_HISTORY {
        return (false, again);
    }
    history.set_aside(upto);
    let _first = history.first();
    let is_more = look_at_some(configuration, history, tables);
    let (has_left, next) = look_at_some_again(configuration, history, tables, again);
    (is_more || has_left, next)
}
