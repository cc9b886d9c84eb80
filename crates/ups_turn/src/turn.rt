//! The steps of a turn: draw a ticket, look until it is served, take the manager, give it back, decide, serve; and a
//! call made of them all.
ghost use Rattle.std.specs.Prelude.{◌≡◌, ℕ, ◌+◌, ◌^◌, ◌<◌, ◌≤◌, ◌*◌, ◌==◌, length, [], true, false, is_some, All, Some, None, MatchBool, IfOk, OnErr};
ghost use Rattle.std.specs.Option.{IfSome};
ghost use Rattle.ups_life.specs.Settings.{IsMoment};
ghost use Rattle.ups_life.specs.Steps.{past};
ghost use Rattle.ups_life.specs.Events.{pending};
ghost use Rattle.ups_service.specs.Law.{SmallReply, is_granted, is_legal};
ghost use Rattle.ups_service.specs.Looking.{is_look, rows_for, reply_from};
ghost use Rattle.ups_turn.specs.Pass.{HasObserved, IsAtRest, IsServed, IsShelf, most_calls, seen_in, standing};
ghost use Rattle.ups_turn.specs.Plays.{with_ticket, at_turn, served, history_in, TakesTurn, MayDecide, MayServe, Took, MayGive, note_of, joined_views, kept_back, dealt, settled, CaughtUp};

use crate::held::Held;
use crate::rule::{Both, Deal, Decide, DeskTable, Draw, Look, Note, PassSeat, Serve, Settle};
use std::alloc::{AllocError, Allocator};
use std::hint::spin_loop;
use std::sync::Wait;
use ups_life::{Ask, Reply};
use ups_pdu::Ae;
use ups_rows::SharedRows;
use ups_service::{Observer, SharedService};

/// The word that counts the entered requests.
pub(crate) const COUNT: usize = 0;

/// The word with the ticket that is drawn next.
const TICKET: usize = 1;

/// The word with the ticket whose turn it is.
const SERVING: usize = 2;

/// The number of times that a pass looks before it sleeps. A turn is short: most often it comes while the pass still
/// looks, but a pass that only looks takes the processor from the one that has the turn.
const LOOKS: u32 = 100;

/// Draws a ticket.
fn draw<M: SharedService<A>, A: Allocator + Copy>(
    shelf: &DeskTable<M, A>,
    place: &mut PassSeat<M, A>,
) -> u64
    requires table { IsShelf place.old.table_id shelf.now.table_id }
    requires rests { place.old.me.0.ticket ≡ None }
    requires left { place.old.me.0.draws + 1 ≤ length place.old.me.0.parts * 2 ^ 40 }
    ensures same { (place.new.table_id ≡ place.old.table_id) × (place.new.id ≡ place.old.id) }
    ensures drawn { place.new.me ≡ (with_ticket place.old.me.0 result, place.old.me.1) }
{
    shelf.fetch_add::<Draw>(place, TICKET, 1)
}

/// Reads which ticket is served, and returns it. If it is the seat's own, the seat has the turn, and the manager.
fn look<M: SharedService<A>, A: Allocator + Copy>(
    shelf: &DeskTable<M, A>,
    place: &mut PassSeat<M, A>,
    ticket: u64,
) -> u64
    requires table { IsShelf place.old.table_id shelf.now.table_id }
    requires waits { (place.old.me.0.ticket ≡ Some ticket) × (place.old.me.0.turn ≡ false) × (place.old.me.1 ≡ []) × (0 < length place.old.me.0.parts) }
    ensures same { (place.new.table_id ≡ place.old.table_id) × (place.new.id ≡ place.old.id) }
    ensures turn { MatchBool (ticket == result) (TakesTurn place.old.me place.new.me) (place.new.me ≡ place.old.me) }
{
    shelf.load::<Look>(place, SERVING)
}

/// Looks a number of times, or until the ticket is served. Returns the ticket that was served at the last look.
fn look_often<M: SharedService<A>, A: Allocator + Copy>(
    shelf: &DeskTable<M, A>,
    place: &mut PassSeat<M, A>,
    ticket: u64,
) -> u64
    requires table { IsShelf place.old.table_id shelf.now.table_id }
    requires waits { (place.old.me.0.ticket ≡ Some ticket) × (place.old.me.0.turn ≡ false) × (place.old.me.1 ≡ []) × (0 < length place.old.me.0.parts) }
    ensures same { (place.new.table_id ≡ place.old.table_id) × (place.new.id ≡ place.old.id) }
    ensures turn { MatchBool (ticket == result) (TakesTurn place.old.me place.new.me) (place.new.me ≡ place.old.me) }
{
    for _ in 0..LOOKS {
        let serving = look(shelf, place, ticket);
        if ticket == serving {
            return serving;
        }
        spin_loop();
    }
    look(shelf, place, ticket)
}

/// Waits for the turn: looks, and then sleeps until another ticket is served than the one that was found.
fn wait<M: SharedService<A>, A: Allocator + Copy, R: Wait>(
    rt: &R,
    shelf: &DeskTable<M, A>,
    place: &mut PassSeat<M, A>,
    ticket: u64,
)
    requires table { IsShelf place.old.table_id shelf.now.table_id }
    requires waits { (place.old.me.0.ticket ≡ Some ticket) × (place.old.me.0.turn ≡ false) × (place.old.me.1 ≡ []) × (0 < length place.old.me.0.parts) }
    ensures same { (place.new.table_id ≡ place.old.table_id) × (place.new.id ≡ place.old.id) }
    ensures turn { TakesTurn place.old.me place.new.me }
{
    for _ in rt.forever() {
        let serving = look_often(shelf, place, ticket);
        if ticket == serving {
            return;
        }
        shelf.park(rt, SERVING, low_half(serving));
    }
    unreachable!()
}

// Returns the half of a word that a sleeping thread watches.
pub(crate) fn low_half(word: u64) -> u32 {
    (word % (1 << 32)) as u32
}

/// Enters `entered` requests: as many as the manager in the seat's hands has beyond those that the pass has seen.
fn count_entered<M: SharedService<A>, A: Allocator + Copy>(
    shelf: &DeskTable<M, A>,
    place: &mut PassSeat<M, A>,
    entered: u64,
)
    requires table { IsShelf place.old.table_id shelf.now.table_id }
    requires may { MayDecide place.old.me entered }
    ensures same { (place.new.table_id ≡ place.old.table_id) × (place.new.id ≡ place.old.id) }
    ensures decided { place.new.me ≡ (at_turn place.old.me.0 true (history_in place.old.me.1), place.old.me.1) }
{
    shelf.fetch_add::<Decide>(place, COUNT, entered);
}

/// Gives up the manager and serves the next ticket. Returns the ticket that was served until then.
fn serve<M: SharedService<A>, A: Allocator + Copy>(
    shelf: &DeskTable<M, A>,
    place: &mut PassSeat<M, A>,
) -> u64
    requires table { IsShelf place.old.table_id shelf.now.table_id }
    requires may { MayServe place.old.me }
    ensures same { (place.new.table_id ≡ place.old.table_id) × (place.new.id ≡ place.old.id) }
    ensures served { place.new.me ≡ (served place.old.me.0, []) }
{
    shelf.fetch_add::<Serve>(place, SERVING, 1)
}

/// Wakes the sleeping passes if a ticket was drawn after the one that was served until now. Otherwise nobody waits, and
/// the system is not called.
fn wake<M: SharedService<A>, A: Allocator + Copy>(shelf: &DeskTable<M, A>, served: u64)
    requires { shelf.now.table_id.words ≡ 3 }
{
    if shelf.peek(TICKET) != served.wrapping_add(1) {
        shelf.wake_all(SERVING);
    }
}

/// Waits for a turn, and takes the manager.
fn take<M: SharedService<A>, A: Allocator + Copy, R: Wait>(
    rt: &R,
    shelf: &DeskTable<M, A>,
    place: &mut PassSeat<M, A>,
) -> Held<M, A>
    requires table { IsShelf place.old.table_id shelf.now.table_id }
    requires rests { (place.old.me.0.ticket ≡ None) × (place.old.me.0.turn ≡ false) × (place.old.me.1 ≡ []) }
    requires left { place.old.me.0.draws + 1 ≤ length place.old.me.0.parts * 2 ^ 40 }
    ensures same { (place.new.table_id ≡ place.old.table_id) × (place.new.id ≡ place.old.id) }
    ensures took { Took place.old.me place.new.me result }
{
    let ticket = draw(shelf, place);
    wait(rt, shelf, place, ticket);
    let Some(manager) = shelf.exchange(place, 0, None) else {
        unreachable!()
    };
    manager
}

/// Gives the manager back with `count` new entries, and ends the turn.
fn give<M: SharedService<A>, A: Allocator + Copy>(
    shelf: &DeskTable<M, A>,
    place: &mut PassSeat<M, A>,
    manager: Held<M, A>,
    count: u64,
)
    requires table { IsShelf place.old.table_id shelf.now.table_id }
    requires may { MayGive place.old.me manager count }
    ensures same { (place.new.table_id ≡ place.old.table_id) × (place.new.id ≡ place.old.id) }
    ensures gave { place.new.me ≡ (served (at_turn place.old.me.0 true manager.history), []) }
{
    let None = shelf.exchange(place, 0, Some(manager)) else {
        unreachable!()
    };
    count_entered(shelf, place, count);
    let served = serve(shelf, place);
    wake(shelf, served);
}

/// Makes one call in the turn of a seat that rests: takes the manager, lets it answer, and gives it back. Returns the
/// reply, and the number of requests that are entered then.
pub(crate) fn call_in_turn<M: SharedService<A>, A: Allocator + Copy, R: Wait>(
    rt: &R,
    shelf: &DeskTable<M, A>,
    place: &mut PassSeat<M, A>,
    number: u32,
    ae: Ae,
    moment: u64,
    ask: &mut Option<Ask<A>>,
) -> (Reply<A>, u64)
    requires given { is_some ask.old ≡ true }
    requires moment { IsMoment moment }
    requires table { IsShelf place.old.table_id shelf.now.table_id }
    requires rests { IsAtRest number place.old.me }
    requires left { place.old.me.0.draws < most_calls }
    ensures table { place.new.table_id ≡ place.old.table_id }
    ensures rests { IsAtRest number place.new.me }
    ensures entries { result.1 ≡ length (seen_in place.new.me.0.parts) }
    ensures legal { is_legal place.new.me.0.settings (seen_in place.new.me.0.parts) }
    ensures served { IfSome ask.old (λ asked. IsServed (standing place.old.table_id number place.old.me.0) ae moment asked result.0 (standing place.new.table_id number place.new.me.0)) }
    ensures small { SmallReply result.0 }
{
    let mut manager = take(rt, shelf, place);
    let before = manager.entries();
    let reply = manager.answer_as(number, ae, moment, ask);
    let after = manager.entries();
    give(shelf, place, manager, after - before);
    (reply, after)
}

/// Shows the history to an observer in the turn of a seat that rests: takes the manager, and gives it back as it was.
/// Returns the number of entered requests.
pub(crate) fn observe_in_turn<M: SharedService<A>, O: Observer<A>, A: Allocator + Copy, R: Wait>(
    rt: &R,
    shelf: &DeskTable<M, A>,
    place: &mut PassSeat<M, A>,
    number: u32,
    observer: &mut O,
) -> u64
    requires table { IsShelf place.old.table_id shelf.now.table_id }
    requires rests { IsAtRest number place.old.me }
    requires left { place.old.me.0.draws < most_calls }
    ensures table { place.new.table_id ≡ place.old.table_id }
    ensures rests { IsAtRest number place.new.me }
    ensures entries { result ≡ length (seen_in place.new.me.0.parts) }
    ensures legal { is_legal place.new.me.0.settings (seen_in place.new.me.0.parts) }
    ensures standing { HasObserved (standing place.old.table_id number place.old.me.0) (standing place.new.table_id number place.new.me.0) }
    ensures observed { O.observed observer.old (seen_in place.new.me.0.parts) observer.new }
{
    let manager = take(rt, shelf, place);
    observer.observe(manager.history());
    let entries = manager.entries();
    give(shelf, place, manager, 0);
    entries
}

/// Counts the events that wait for a watcher in the turn of a seat that rests: takes the manager, and gives it back as it
/// was. Returns their number, and the number of entered requests.
pub(crate) fn waiting_in_turn<M: SharedService<A>, A: Allocator + Copy, R: Wait>(
    rt: &R,
    shelf: &DeskTable<M, A>,
    place: &mut PassSeat<M, A>,
    number: u32,
    ae: Ae,
) -> (usize, u64)
    requires table { IsShelf place.old.table_id shelf.now.table_id }
    requires rests { IsAtRest number place.old.me }
    requires left { place.old.me.0.draws < most_calls }
    ensures table { place.new.table_id ≡ place.old.table_id }
    ensures rests { IsAtRest number place.new.me }
    ensures entries { result.1 ≡ length (seen_in place.new.me.0.parts) }
    ensures legal { is_legal place.new.me.0.settings (seen_in place.new.me.0.parts) }
    ensures standing { HasObserved (standing place.old.table_id number place.old.me.0) (standing place.new.table_id number place.new.me.0) }
    ensures waiting { result.0 ≡ length (pending place.new.me.0.settings (past (seen_in place.new.me.0.parts)) ae) }
{
    let manager = take(rt, shelf, place);
    let waiting = manager.waiting(ae);
    let entries = manager.entries();
    give(shelf, place, manager, 0);
    (waiting, entries)
}

/// Takes the rows on which the reply to an N-GET or a query rests in the turn of a seat that rests: takes the manager, and
/// gives it back with the same history. Returns the rows, and the number of entered requests.
pub(crate) fn look_in_turn<M: SharedService<A>, A: Allocator + Copy, R: Wait>(
    rt: &R,
    shelf: &DeskTable<M, A>,
    place: &mut PassSeat<M, A>,
    number: u32,
    ask: &Ask<A>,
) -> (Result<SharedRows<A>, AllocError>, u64)
    requires look { is_look ask.now ≡ true }
    requires table { IsShelf place.old.table_id shelf.now.table_id }
    requires rests { IsAtRest number place.old.me }
    requires left { place.old.me.0.draws < most_calls }
    ensures table { place.new.table_id ≡ place.old.table_id }
    ensures rests { IsAtRest number place.new.me }
    ensures entries { result.1 ≡ length (seen_in place.new.me.0.parts) }
    ensures legal { is_legal place.new.me.0.settings (seen_in place.new.me.0.parts) }
    ensures standing { HasObserved (standing place.old.table_id number place.old.me.0) (standing place.new.table_id number place.new.me.0) }
    ensures rows { IfOk result.0 (λ rows. rows ≡ rows_for place.new.me.0.settings (seen_in place.new.me.0.parts) ask.now) }
    ensures lacks { OnErr result.0 (is_granted (reply_from (rows_for place.new.me.0.settings (seen_in place.new.me.0.parts) ask.now) ask.now) ≡ true) }
    ensures small { SmallReply (reply_from (rows_for place.new.me.0.settings (seen_in place.new.me.0.parts) ask.now) ask.now) }
{
    let mut manager = take(rt, shelf, place);
    let rows = manager.look(ask);
    let entries = manager.entries();
    give(shelf, place, manager, 0);
    (rows, entries)
}

/// Does some of the work that no answer depends on in the turn of a seat that rests: takes the manager, and gives it back
/// with the same history. Returns whether there is more to do, and the number of entered requests.
pub(crate) fn maintain_in_turn<M: SharedService<A>, A: Allocator + Copy, R: Wait>(
    rt: &R,
    shelf: &DeskTable<M, A>,
    place: &mut PassSeat<M, A>,
    number: u32,
    upto: usize,
) -> (bool, u64)
    requires table { IsShelf place.old.table_id shelf.now.table_id }
    requires rests { IsAtRest number place.old.me }
    requires left { place.old.me.0.draws < most_calls }
    ensures table { place.new.table_id ≡ place.old.table_id }
    ensures rests { IsAtRest number place.new.me }
    ensures entries { result.1 ≡ length (seen_in place.new.me.0.parts) }
    ensures legal { is_legal place.new.me.0.settings (seen_in place.new.me.0.parts) }
    ensures standing { HasObserved (standing place.old.table_id number place.old.me.0) (standing place.new.table_id number place.new.me.0) }
{
    let mut manager = take(rt, shelf, place);
    let is_more = manager.maintain(upto);
    let entries = manager.entries();
    give(shelf, place, manager, 0);
    (is_more, entries)
}

/// Splits off a note of what the seat's passes have seen.
pub(crate) fn note<M: SharedService<A>, A: Allocator + Copy>(
    shelf: &DeskTable<M, A>,
    place: &mut PassSeat<M, A>,
) -> PassSeat<M, A>
    requires table { IsShelf place.old.table_id shelf.now.table_id }
    ensures same { (place.new.table_id ≡ place.old.table_id) × (place.new.id ≡ place.old.id) × (place.new.me ≡ place.old.me) }
    ensures note { (result.table_id ≡ place.old.table_id) × (result.me ≡ (note_of place.old.me.0, [])) }
{
    shelf.split_seat::<Note>(place)
}

/// Splits off a seat for the first of the seat's passes.
pub(crate) fn deal<M: SharedService<A>, A: Allocator + Copy>(
    shelf: &DeskTable<M, A>,
    place: &mut PassSeat<M, A>,
) -> PassSeat<M, A>
    requires table { IsShelf place.old.table_id shelf.now.table_id }
    requires fresh { (place.old.me.0.draws ≡ 0) × (place.old.me.0.turn ≡ false) }
    ensures same { (place.new.table_id ≡ place.old.table_id) × (place.new.id ≡ place.old.id) × (place.new.me ≡ (kept_back place.old.me.0, place.old.me.1)) }
    ensures pass { (result.table_id ≡ place.old.table_id) × (result.me ≡ (dealt place.old.me.0, [])) }
{
    shelf.split_seat::<Deal>(place)
}

/// Joins another seat to this one, which then represents the other's passes too, and has its notes.
pub(crate) fn absorb<M: SharedService<A>, A: Allocator + Copy>(
    shelf: &DeskTable<M, A>,
    place: &mut PassSeat<M, A>,
    other: PassSeat<M, A>,
)
    requires table { IsShelf place.old.table_id shelf.now.table_id × (other.table_id ≡ shelf.now.table_id) }
    requires rests { (place.old.me.0.turn ≡ false) × (other.me.0.ticket ≡ None) × (other.me.0.turn ≡ false) × (other.me.1 ≡ []) }
    requires some { 0 < length other.me.0.parts → 0 < length place.old.me.0.parts }
    ensures same { (place.new.table_id ≡ place.old.table_id) × (place.new.id ≡ place.old.id) }
    ensures joined { place.new.me ≡ (joined_views place.old.me.0 other.me.0, place.old.me.1) }
{
    shelf.join_seat::<Both>(place, other);
}

/// Makes the seat's passes learn what was noted.
pub(crate) fn settle<M: SharedService<A>, A: Allocator + Copy>(
    shelf: &DeskTable<M, A>,
    place: &mut PassSeat<M, A>,
)
    requires table { IsShelf place.old.table_id shelf.now.table_id }
    requires rests { (place.old.me.0.turn ≡ false) × (0 < length place.old.me.0.parts) }
    ensures same { (place.new.table_id ≡ place.old.table_id) × (place.new.id ≡ place.old.id) }
    ensures settled { place.new.me ≡ (settled place.old.me.0, place.old.me.1) }
    ensures caught_up { All (CaughtUp place.old.me.0.settings place.old.me.0.notes) place.old.me.0.parts }
{
    shelf.fetch_add::<Settle>(place, COUNT, 0);
}
