//! The answers of the plain programs about a history, the size of the row of a step, and the events of the peers.

ghost use Rattle.std.specs.Prelude.{IfOk};
ghost use Rattle.ups_life.specs.Settings.{IsOffset};

use crate::lines::{lacking, moment_of, no_course, step_of, text_of};
use fixtures::add_bytes;
use std::alloc::{Allocator, Global};
use std::io;
use ups_dataset::{DataSet, read_set};
use ups_life::{Configuration, Reply, StepUid, Subscription};
use ups_lines::{Way, Words, attributes_of, put_set, spelled};
use ups_manager::Manager;
use ups_match::Keys;
use ups_pdu::{Ae, TransferSyntax};
use ups_plain::{is_due, plain_find, plain_held, plain_watches};

/// Returns the settings of a manager.
fn settings_of<A: Allocator + Copy>(heap: A, manager: &Manager<A>) -> io::Result<Configuration<A>>
    ensures { IfOk result (λ settings. IsOffset settings.offset) }
{
    let peers = Vec::from_slice(heap, manager.peers())?;
    Ok(Configuration::new(peers, manager.keep(), manager.offset(), manager.limit()))
}

/// Returns the steps that are held, and those that each peer watches, like the replies to `held` and `watches` in a
/// script.
pub(crate) fn lists_of<A: Allocator + Copy>(
    alloc: Global,
    heap: A,
    manager: &Manager<A>,
) -> io::Result<String> {
    let settings = settings_of(heap, manager)?;
    let mut text = String::new(alloc);
    add_held(heap, &mut text, manager, &settings)?;
    for peer in manager.peers() {
        add_watches(heap, &mut text, manager, &settings, peer.ae)?;
    }
    Ok(text)
}

/// Adds the steps that are held.
fn add_held<A: Allocator + Copy>(
    heap: A,
    text: &mut String,
    manager: &Manager<A>,
    settings: &Configuration<A>,
) -> io::Result<()>
    requires { IsOffset settings.now.offset }
{
    let Ok(steps) = plain_held(heap, settings, manager.history()) else {
        return Err(lacking());
    };
    text.push_str("0000")?;
    for step in &steps {
        add_step(text, step)?;
    }
    Ok(text.push('\n')?)
}

/// Adds a space and the UID of a step.
fn add_step(text: &mut String, step: &StepUid) -> io::Result<()> {
    text.push(' ')?;
    Ok(add_bytes(text, step.as_bytes())?)
}

/// Adds the steps that a peer watches.
fn add_watches<A: Allocator + Copy>(
    heap: A,
    text: &mut String,
    manager: &Manager<A>,
    settings: &Configuration<A>,
    ae: Ae,
) -> io::Result<()>
    requires { IsOffset settings.now.offset }
{
    let Ok(watched) = plain_watches(heap, settings, manager.history(), ae) else {
        return Err(lacking());
    };
    text.push_str("0000")?;
    for one in &watched {
        add_step(text, &one.step)?;
        let is_locked = matches!(one.subscription, Subscription::Locked);
        text.push_str(if is_locked { ":locked" } else { ":free" })?;
    }
    Ok(text.push('\n')?)
}

/// Returns whether a step is due to be removed at a moment, given the moment, a space and the UID of the step.
pub(crate) fn due_of<A: Allocator + Copy>(
    alloc: Global,
    heap: A,
    manager: &Manager<A>,
    given: &[u8],
) -> io::Result<String> {
    let (moment, step) = text_of(given)?.split_once(' ').unwrap_or(("", ""));
    let (moment, step) = (moment_of(moment)?, step_of(step.as_bytes())?);
    let settings = settings_of(heap, manager)?;
    match is_due(heap, &settings, manager.history(), moment, step) {
        Ok(is_due) => Ok(format!(in alloc; "{is_due}")?),
        Err(_) => Err(lacking()),
    }
}

/// Returns the bytes of the data set with these words, as in a line of a script.
fn spelled_by<A: Allocator + Copy>(heap: A, words: &[u8]) -> io::Result<Vec<u8, A>> {
    let Ok(attributes) = attributes_of(heap, &[], Words::of(words)) else {
        return Err(no_course());
    };
    spelled(heap, &attributes).map_err(|_| no_course())
}

/// Returns the keys with these words.
fn keys_of<A: Allocator + Copy>(heap: A, words: &[u8], offset: i16) -> io::Result<Keys<A>> {
    let bytes = spelled_by(heap, words)?;
    let Ok(set) = read_set(heap, TransferSyntax::Explicit, &bytes) else {
        return Err(no_course());
    };
    Keys::of(set, offset).map_err(|_| no_course())
}

/// Adds the attributes of a step that is found, in brackets.
fn add_set<A: Allocator + Copy>(
    alloc: Global,
    text: &mut String,
    set: &DataSet<A>,
) -> io::Result<()> {
    let mut bytes = Vec::new(alloc);
    put_set(set, &Way::Here, &mut false, &mut bytes)?;
    Ok(write!(text, " [{}]", text_of(&bytes)?)?)
}

/// Returns what the plain program finds by keys, like the reply to `find` in a script.
pub(crate) fn found_by<A: Allocator + Copy>(
    alloc: Global,
    heap: A,
    manager: &Manager<A>,
    given: &[u8],
) -> io::Result<String> {
    let keys = keys_of(heap, given, manager.offset())?;
    let settings = settings_of(heap, manager)?;
    let Ok(sets) = plain_find(heap, &settings, manager.history(), &keys) else {
        return Err(lacking());
    };
    let mut text = String::new(alloc);
    text.push_str("0000")?;
    for set in sets.as_slice() {
        add_set(alloc, &mut text, set)?;
    }
    text.push('\n')?;
    Ok(text)
}

/// Returns about how many steps the last query asked whether they match, and then for each peer how many events wait and
/// how many were made.
pub(crate) fn counts_of<A: Allocator + Copy>(
    alloc: Global,
    manager: &Manager<A>,
) -> io::Result<String> {
    let mut text = format!(in alloc; "{}", manager.asked())?;
    for peer in manager.peers() {
        let (waiting, made) = (manager.waiting(peer.ae), manager.events_made(peer.ae));
        write!(text, " {waiting} {made}")?;
    }
    Ok(text)
}

/// Returns the number of bytes that are shown of a step, or 0 if it is not shown.
pub(crate) fn size_of<A: Allocator + Copy>(
    alloc: Global,
    manager: &Manager<A>,
    given: &[u8],
) -> io::Result<String> {
    let step = step_of(given)?;
    let size = match &manager.get(Some(step), &[]) {
        Reply::Set(_, set) => set.size(),
        _ => 0,
    };
    Ok(format!(in alloc; "{size}")?)
}
