ghost use Rattle.std.specs.Prelude.{◌≡◌, ◌<◌, true, length, IfOk};
ghost use Rattle.ups_watch.specs.Table.{knows};

use crate::steps::step_of;
use fixtures::rows::{check, check_same, cut};
use fixtures::{Refusing, words};
use std::alloc::{Allocator, Global};
use std::test::Fail;
use ups_dataset::DataSet;
use ups_life::{Place, StepUid, Subscription};
use ups_match::Keys;
use ups_watch::{Cover, Watchers};

/// Returns the subscription that a letter stands for: `L` with a Deletion Lock, `F` without.
fn subscription_of(letter: &str) -> Result<Subscription, Fail> {
    match letter {
        "L" => Ok(Subscription::Locked),
        "F" => Ok(Subscription::Free),
        _ => Err("no subscription".into()),
    }
}

/// Returns the letter of a subscription, or `-` if there is none.
fn letter_of(subscription: Option<Subscription>) -> char {
    match subscription {
        Some(Subscription::Locked) => 'L',
        Some(Subscription::Free) => 'F',
        None => '-',
    }
}

/// Adds the letters of subscriptions.
fn add_letters(text: &mut String, cells: &[Option<Subscription>]) -> Result<(), Fail> {
    for cell in cells {
        text.push(letter_of(*cell))?;
    }
    Ok(())
}

/// Returns how each peer is subscribed to the steps 1 and 2, as letters, with none for a step that is not known.
fn letters_of<A: Allocator + Copy>(alloc: Global, watchers: &Watchers<A>) -> Result<String, Fail> {
    let mut text = String::new(alloc);
    add_letters(&mut text, watchers.of_step(step_of(alloc, "1")?))?;
    text.push(',')?;
    add_letters(&mut text, watchers.of_step(step_of(alloc, "2")?))?;
    Ok(text)
}

/// Returns the place of a peer.
fn peer_of<A: Allocator + Copy>(watchers: &Watchers<A>, digits: &str) -> Result<usize, Fail>
    ensures { IfOk result (λ peer. peer < length watchers.now.covers) }
{
    let peer = digits.parse::<usize>()?;
    if peer >= watchers.peers() {
        return Err("no peer".into());
    }
    Ok(peer)
}

/// Returns a step that is known.
fn known_step<A: Allocator + Copy>(
    alloc: Global,
    watchers: &Watchers<A>,
    number: &str,
) -> Result<StepUid, Fail>
    ensures { IfOk result (λ step. knows watchers.now step ≡ true) }
{
    let step = step_of(alloc, number)?;
    if !watchers.knows(step) {
        return Err("no step".into());
    }
    Ok(step)
}

/// Creates a step with attributes.
fn create<A: Allocator + Copy>(
    watchers: &mut Watchers<A>,
    step: StepUid,
    attributes: &DataSet<A>,
) -> Result<(), Fail> {
    watchers.reserve(1)?;
    watchers.created(step, attributes);
    Ok(())
}

/// Subscribes a peer to a step.
fn subscribe(alloc: Global, watchers: &mut Watchers<Global>, words: &str) -> Result<(), Fail> {
    let (peer, words) = cut(words, " ")?;
    let (step, letter) = cut(words, " ")?;
    let peer = peer_of(watchers, peer)?;
    let step = known_step(alloc, watchers, step)?;
    watchers.subscribe(peer, step, subscription_of(letter)?);
    Ok(())
}

/// Ends the subscription of a peer to a step, or all of its subscriptions with `all`.
fn unsubscribe(alloc: Global, watchers: &mut Watchers<Global>, words: &str) -> Result<(), Fail> {
    let (peer, place) = cut(words, " ")?;
    let peer = peer_of(watchers, peer)?;
    let place = match place {
        "all" => Place::Everywhere,
        step => Place::At(Some(step_of(alloc, step)?)),
    };
    watchers.unsubscribe(peer, place);
    Ok(())
}

/// Gives a peer a global subscription to each step to come.
fn cover(watchers: &mut Watchers<Global>, words: &str) -> Result<(), Fail> {
    let (peer, letter) = cut(words, " ")?;
    let peer = peer_of(watchers, peer)?;
    let cover = Cover {
        keys: None,
        subscription: subscription_of(letter)?,
    };
    watchers.global(peer, cover, &[]);
    Ok(())
}

/// Does what a line says.
fn act(alloc: Global, watchers: &mut Watchers<Global>, line: &str) -> Result<(), Fail> {
    let (verb, words) = cut(line, " ")?;
    match verb {
        "create" => create(watchers, step_of(alloc, words)?, &DataSet::new(alloc)),
        "remove" => {
            watchers.removed(step_of(alloc, words)?);
            Ok(())
        }
        "subscribe" => subscribe(alloc, watchers, words),
        "unsubscribe" => unsubscribe(alloc, watchers, words),
        "cover" => cover(watchers, words),
        "suspend" => {
            let peer = peer_of(watchers, words)?;
            watchers.suspend(peer);
            Ok(())
        }
        _ => Err("no verb".into()),
    }
}

/// What is done, one line after the other, and how the three peers are subscribed to the steps 1 and 2 then.
const CALLS: &str = "\
create 1 = ---,
subscribe 1 1 F = -F-,
subscribe 1 1 L = -L-,
cover 0 F = -L-,
create 2 = -L-,F--
subscribe 2 2 F = -L-,F-F
suspend 0 = -L-,F-F
remove 1 = ,F-F
create 1 = ---,F-F
cover 2 L = ---,F-F
remove 1 = ,F-F
create 1 = --L,F-F
unsubscribe 0 2 = --L,--F
subscribe 0 2 L = --L,L-F
unsubscribe 2 all = ---,L--
remove 1 = ,L--
create 1 = ---,L--";

/// Does what the line of a row does, and fails if the row does not say how the peers are subscribed then.
fn row_is_so(alloc: Global, watchers: &mut Watchers<Global>, row: &str) -> Result<(), Fail> {
    let (line, letters) = cut(row, " = ")?;
    act(alloc, watchers, line)?;
    check_same(line, letters_of(alloc, watchers)?.as_str(), letters)
}

/// Does what the rows say, one after the other.
fn rows_are_so(alloc: Global, watchers: &mut Watchers<Global>) -> Result<(), Fail> {
    for row in CALLS.lines() {
        row_is_so(alloc, watchers, row)?;
    }
    Ok(())
}

#[test]
fn peers_are_subscribed_as_they_ask(rt: HostRuntime) -> Result<(), Fail> {
    let mut watchers = Watchers::new(rt.alloc(), 3)?;
    rows_are_so(rt.alloc(), &mut watchers)
}

/// Subscribes two peers to a step, the first with a Deletion Lock and the second without; returns the number of locks,
/// and whether the step is kept as it is, without the subscription of the first, and with a lock of the second.
fn locks_in(
    alloc: Global,
    watchers: &mut Watchers<Global>,
) -> Result<(usize, bool, bool, bool), Fail> {
    act(alloc, watchers, "create 1")?;
    subscribe(alloc, watchers, "0 1 L")?;
    subscribe(alloc, watchers, "1 1 F")?;
    let step = known_step(alloc, watchers, "1")?;
    let one = peer_of(watchers, "0")?;
    let other = peer_of(watchers, "1")?;
    Ok((
        watchers.locks(step),
        watchers.is_kept(step),
        watchers.is_kept_with(step, one, None),
        watchers.is_kept_with(step, other, Some(Subscription::Locked)),
    ))
}

/// The same with a new table.
fn locks_of(alloc: Global) -> Result<(usize, bool, bool, bool), Fail> {
    let mut watchers = Watchers::new(alloc, 2)?;
    locks_in(alloc, &mut watchers)
}

#[test]
fn a_lock_keeps_a_step_until_it_ends(rt: HostRuntime) -> Result<(), Fail> {
    check("locks", locks_of(rt.alloc())? == (1, true, false, true))
}

/// Gives the first peer a global subscription with a filter.
fn follow(alloc: Global, watchers: &mut Watchers<Global>, words: &str) -> Result<(), Fail> {
    let keys = Keys::of(words::set_of(alloc, words)?, 0)?;
    let peer = peer_of(watchers, "0")?;
    let cover = Cover {
        keys: Some(keys),
        subscription: Subscription::Free,
    };
    watchers.global(peer, cover, &[]);
    Ok(())
}

/// Subscribes those who begin to watch the second step when its attributes change.
fn change(
    alloc: Global,
    watchers: &mut Watchers<Global>,
    before: &DataSet<Global>,
    after: &DataSet<Global>,
) -> Result<(), Fail> {
    let step = known_step(alloc, watchers, "2")?;
    let newly = watchers.newly(step, before, after)?;
    if newly.len() <= watchers.peers() {
        watchers.subscribe_each(step, &newly);
    }
    Ok(())
}

/// Creates a step with the attributes that a filter asks for, and one with others, which then gets those of the first;
/// returns the subscriptions before and after that.
fn letters_around(
    alloc: Global,
    watchers: &mut Watchers<Global>,
    reads: &DataSet<Global>,
    other: &DataSet<Global>,
) -> Result<String, Fail> {
    create(watchers, step_of(alloc, "1")?, reads)?;
    create(watchers, step_of(alloc, "2")?, other)?;
    let before = letters_of(alloc, watchers)?;
    change(alloc, watchers, other, reads)?;
    let after = letters_of(alloc, watchers)?;
    Ok(format!(in alloc; "{before} {after}")?)
}

/// The same with a table whose first peer has a filter.
fn filtered_in(alloc: Global, watchers: &mut Watchers<Global>) -> Result<String, Fail> {
    follow(alloc, watchers, "00741202=READS")?;
    let reads = words::set_of(alloc, "00741202=READS")?;
    let other = words::set_of(alloc, "00741202=OTHER")?;
    letters_around(alloc, watchers, &reads, &other)
}

/// The same with a new table of one peer.
fn filtered(alloc: Global) -> Result<String, Fail> {
    let mut watchers = Watchers::new(alloc, 1)?;
    filtered_in(alloc, &mut watchers)
}

#[test]
fn a_filter_follows_a_change(rt: HostRuntime) -> Result<(), Fail> {
    check_same("filtered", filtered(rt.alloc())?.as_str(), "F,- F,F")
}

/// Creates the first step, and locks it for the second peer.
fn lock_step<A: Allocator + Copy>(
    alloc: Global,
    watchers: &mut Watchers<A>,
    attributes: &DataSet<A>,
) -> Result<(), Fail> {
    create(watchers, step_of(alloc, "1")?, attributes)?;
    let peer = peer_of(watchers, "1")?;
    let step = known_step(alloc, watchers, "1")?;
    watchers.subscribe(peer, step, Subscription::Locked);
    Ok(())
}

/// Makes room for two steps after a first while the growth with this number is refused; returns whether that succeeds,
/// and in either case how the peers are subscribed to the first.
fn reserved_in<'a>(
    alloc: Global,
    heap: &'a Refusing<Global>,
    watchers: &mut Watchers<&'a Refusing<Global>>,
    growth: u64,
) -> Result<(bool, String), Fail> {
    lock_step(alloc, watchers, &DataSet::new(heap))?;
    heap.refuse(growth);
    let is_reserved = watchers.reserve(2).is_ok();
    heap.refuse(0);
    if is_reserved && watchers.spare() < 2 {
        return Err("no room".into());
    }
    Ok((is_reserved, letters_of(alloc, watchers)?))
}

/// The same with a new table of three peers.
fn reserved_lacking(alloc: Global, growth: u64) -> Result<(bool, String), Fail> {
    let heap = Refusing::new(alloc);
    let mut watchers = Watchers::new(&heap, 3)?;
    reserved_in(alloc, &heap, &mut watchers, growth)
}

/// Returns whether that succeeds; the peers must stay subscribed in either case.
fn is_reserved(alloc: Global, growth: u64) -> Result<bool, Fail> {
    let (is_whole, letters) = reserved_lacking(alloc, growth)?;
    check_same("subscribed", letters.as_str(), "-L-,")?;
    Ok(is_whole)
}

#[test]
fn a_table_stays_where_a_growth_is_refused(rt: HostRuntime) -> Result<(), Fail> {
    let mut refused = 0u64;
    for growth in 1..20 {
        if !is_reserved(rt.alloc(), growth)? {
            refused = growth;
        }
    }
    check(
        "at least two rows are made, and the rest succeeds",
        refused >= 2 && refused < 19,
    )
}

/// Returns whether a table of three peers is made while the growth with this number is refused.
fn is_made(alloc: Global, growth: u64) -> bool {
    let heap = Refusing::new(alloc);
    heap.refuse(growth);
    Watchers::new(&heap, 3).is_ok()
}

#[test]
fn a_table_takes_its_memory_at_once(rt: HostRuntime) -> Result<(), Fail> {
    check("made", !is_made(rt.alloc(), 1) && is_made(rt.alloc(), 2))
}
