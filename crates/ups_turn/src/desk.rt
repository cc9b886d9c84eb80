//! The desk: it opens over a manager, lets passes meet, and closes when all passes are back.
ghost use Rattle.std.specs.Prelude.{◌≡◌, ◌≢◌, ℕ, List, ◌≤◌, ◌<◌, [], ◌∷◌, All, length, map, true, false, is_some, nat_lt, MatchBool, MatchOption, Some, None, vec_capacity, IfOk, IfErr, OnOk, OnErr};
ghost use Rattle.std.specs.Option.{IfSome};
ghost use Rattle.ups_life.specs.Settings.{IsMoment};
ghost use Rattle.ups_life.specs.Steps.{past};
ghost use Rattle.ups_life.specs.Events.{pending};
ghost use Rattle.ups_service.specs.State.{State};
ghost use Rattle.ups_service.specs.Law.{SmallReply, is_granted, is_legal};
ghost use Rattle.ups_service.specs.Looking.{is_look, rows_for, reply_from};
ghost use Rattle.ups_turn.specs.Pass.{HasObserved, IsCall, IsServed, Learns, most_calls, SamePass, IsShelf, EndsFor, HaveNumbers, are_seats, most_seats, open_fault, passes_from, part_of};
ghost use Rattle.ups_turn.specs.Plays.{longer};
ghost use Rattle.ups_turn.specs.Rule.{Behind, EnteredByPasses, opening_view};

use crate::at::At;
use crate::fault::{CloseFault, DeskFault};
use crate::held::Held;
use crate::pass::Pass;
use crate::rule::{DeskTable, InTurn, PassSeat};
use crate::turn::{
    COUNT, absorb, call_in_turn, deal, look_in_turn, low_half, maintain_in_turn, note,
    observe_in_turn, settle, waiting_in_turn,
};
use crate::view::{Opening, View};
use atomic_table::{Refused, Table};
use std::alloc::{AllocError, Allocator};
use std::marker::Model;
use std::snapshot::Snapshot;
use std::sync::atomic::{AtomicU64, Ordering};
use std::sync::{Mutex, Wait};
use std::time::Duration;
use ups_cycle::Status;
use ups_life::{Ask, Reply};
use ups_pdu::Ae;
use ups_rows::SharedRows;
use ups_service::{Observer, SharedService, complete, is_look};

/// The greatest number of passes of a desk. Even if all of them make all their calls, the tickets stay far below what a
/// word holds.
const MOST_SEATS: u32 = 1024;

/// The values of `awaited`: nobody waits for further entries, or somebody does.
const NOBODY: u64 = 0;

const SOMEBODY: u64 = 1;

/// The greatest number of calls of a pass.
const MOST_CALLS: u64 = 1 << 40;

/// A desk with one manager, which threads share. A contract sees it as its table, the number of its passes, and the
/// manager that it opened with.
pub struct Desk<M: SharedService<A>, A: Allocator + Copy> {
    table: Table<Option<Held<M, A>>, View<A>, Opening<M, A>, InTurn, A>,
    seats: u64,
    /// A lock that a pass holds from before it draws its ticket to the end of its turn. So the turn is most often its
    /// own at once, and goes to whichever pass runs, not to one that sleeps. No contract depends on it.
    ticket_lock: Mutex<()>,
    /// Whether somebody waits for further entries: 0 if nobody does. No contract depends on it.
    awaited: AtomicU64,
}

impl<M: SharedService<A>, A: Allocator + Copy> Drop for Desk<M, A> {
    fn drop(self) {
        let Desk {
            table: _,
            seats: _,
            ticket_lock: _,
            awaited: _,
        } = self;
    }
}

impl<M: SharedService<A>, A: Allocator + Copy> Model for Desk<M, A> {
    ghost use Rattle.std.specs.Prelude.{◌≡◌, ◌<◌};
    ghost use Rattle.ups_turn.specs.Pass.{Opened};

    ghost Value = { Opened A };

    ghost use Rattle.std.specs.Coded.{codes};
    ghost use Rattle.ups_dataset.specs.Code.{set_code};

    ghost coded = { Prim.hlevel (set_code, codes) };

    ghost view = { λ d. record { table = d.table.shared.table_id; seats = d.table.shared.key.seats; opening = d.table.shared.key.manager } };

    ghost invariant = { λ d. (d.table.shared.table_id.words ≡ 3) × (d.table.shared.table_id.slots ≡ 1) × (d.seats ≡ d.table.shared.key.seats) × (0 < d.seats) };
}

// Returns whether a desk may have this number of passes.
fn are_seats(seats: u32) -> bool
    ensures { result ≡ are_seats seats }
{
    1 <= seats && seats <= MOST_SEATS
}

// Joins the seats of all these passes into one.
fn gather<M: SharedService<A>, A: Allocator + Copy>(
    shelf: &DeskTable<M, A>,
    mut passes: Vec<Pass<M, A>, A>,
) -> PassSeat<M, A>
    requires some { 0 < length passes.items }
    requires table { (shelf.now.table_id.words ≡ 3) × (shelf.now.table_id.slots ≡ 1) × All (λ p. p.table ≡ shelf.now.table_id) passes.items }
    ensures table { result.table_id ≡ shelf.now.table_id }
    ensures rests { (result.me.0.ticket ≡ None) × (result.me.0.turn ≡ false) × (result.me.1 ≡ []) }
    ensures all { result.me.0.parts ≡ map part_of passes.items }
{
    let Some(last) = passes.pop() else {
        unreachable!()
    };
    let mut place = last.into_place();
    while let Some(pass) = passes.pop() {
        let mut next = pass.into_place();
        absorb(shelf, &mut next, place);
        place = next;
    }
    place
}

// Returns the manager of a table that could not be made.
fn back<M: SharedService<A>, A: Allocator + Copy>(
    refused: Refused<Option<Held<M, A>>, A>,
) -> Held<M, A>
    requires { (manager : State A) × (refused.slots.items ≡ Some manager ∷ []) }
    ensures { refused.slots.items ≡ Some result ∷ [] }
{
    let Refused { mut slots } = refused;
    let Some(Some(manager)) = slots.pop() else {
        unreachable!()
    };
    manager
}

// Deals out the passes of a new desk, in the order of their numbers.
fn deal_out<M: SharedService<A>, A: Allocator + Copy>(
    shelf: &DeskTable<M, A>,
    place: PassSeat<M, A>,
    passes: &mut Vec<Pass<M, A>, A>,
    seats: u32,
    front: u64,
)
    requires table { IsShelf place.table_id shelf.now.table_id }
    requires all { place.me ≡ (opening_view shelf.now.key.manager 1 seats, []) }
    requires front { (front ≡ length shelf.now.key.manager.history) × is_legal shelf.now.key.manager.settings shelf.now.key.manager.history }
    requires room { (passes.old.items ≡ []) × (seats ≤ vec_capacity passes.old) }
    ensures { passes.new.items ≡ passes_from shelf.now.table_id shelf.now.key.manager 1 seats }
{
    let mut place = place;
    for dealt in 0..seats {
        let seat = deal(shelf, &mut place);
        passes.push_reserved(Pass {
            place: seat,
            number: dealt + 1,
            calls: 0,
            front,
        });
    }
}

// Returns the status that says, for the kind of an ask, that resources are exhausted (PS3.7 annex C, PS3.4 section
// C.4.1.1.4).
fn lacking<A: Allocator + Copy>(ask: &Ask<A>) -> Status
    ensures { result ≡ Rattle.ups_service.specs.Law.lacking ask.now }
{
    match ask {
        Ask::Find(_) => Status::OutOfResources,
        _ => Status::ResourceLimitation,
    }
}

impl<M: SharedService<A>, A: Allocator + Copy> Desk<M, A> {
    /// Returns a desk over a manager, and its passes, which have the numbers from 1 to `seats` in this order. It
    /// allocates from `alloc`.
    ///
    /// # Errors
    ///
    /// The manager as it was, with the first of these: `BadSeats` if `seats` is 0 or above 1,024; `Memory` if memory
    /// runs out.
    pub fn open(
        alloc: A,
        manager: M,
        seats: u32,
    ) -> Result<(Desk<M, A>, Vec<Pass<M, A>, A>), (M, DeskFault)>
        ensures allowed { OnOk result (are_seats seats ≡ true) }
        ensures desk { IfOk result (λ r. (r.0.seats ≡ seats) × (r.0.opening ≡ M.state manager)) }
        ensures passes { IfOk result (λ r. r.1.items ≡ passes_from r.0.table (M.state manager) 1 seats) }
        ensures refused { IfErr result (λ r. (M.state r.0 ≡ M.state manager) × (r.1 ≡ open_fault seats)) }
    {
        if !are_seats(seats) {
            return Err((manager, DeskFault::BadSeats));
        }
        let held = match Held::new(alloc, manager) {
            Ok(held) => held,
            Err(manager) => return Err((manager, DeskFault::Memory)),
        };
        match Desk::with_seats(alloc, held, seats) {
            Ok(opened) => Ok(opened),
            Err(held) => Err((held.into_shared(), DeskFault::Memory)),
        }
    }

    // Returns a desk with this number of seats, or the manager if memory runs out.
    fn with_seats(
        alloc: A,
        manager: Held<M, A>,
        seats: u32,
    ) -> Result<(Desk<M, A>, Vec<Pass<M, A>, A>), Held<M, A>>
        requires { (1 ≤ seats) × (seats ≤ most_seats) }
        ensures desk { IfOk result (λ r. (r.0.seats ≡ seats) × (r.0.opening ≡ manager)) }
        ensures passes { IfOk result (λ r. r.1.items ≡ passes_from r.0.table manager 1 seats) }
        ensures refused { IfErr result (λ m. m ≡ manager) }
    {
        let Ok(mut passes) = Vec::with_capacity(alloc, seats as usize) else {
            return Err(manager);
        };
        let Ok(mut slots) = Vec::with_capacity(alloc, 1) else {
            return Err(manager);
        };
        let count = manager.entries();
        let _limit = manager.limit();
        let about = Opening {
            manager: Snapshot::of(&manager),
            seats: u64::from(seats),
        };
        slots.push_reserved(Some(manager));
        match Table::new(alloc, &[count, 0, 0], slots, &about) {
            Ok((table, place)) => {
                deal_out(&table.shared, place, &mut passes, seats, count);
                Ok((
                    Desk {
                        table,
                        seats: u64::from(seats),
                        ticket_lock: Mutex::new(()),
                        awaited: AtomicU64::new(NOBODY),
                    },
                    passes,
                ))
            }
            Err(refused) => Err(back(refused)),
        }
    }

    /// Returns a pass at this desk as a service: each of its calls waits for its turn, which `rt` allows.
    pub fn at<'a, R: Wait>(&'a self, rt: &'a R, pass: &'a mut Pass<M, A>) -> At<'a, M, A, R>
        requires here { pass.old.table ≡ self.now.table }
        ensures same_reference { result.pass.ghost_name ≡ pass.entry.ghost_name }
        ensures stands { result.pass.now ≡ pass.old }
    {
        At::new(rt, self, pass)
    }

    /// Returns the rows on which the reply to an N-GET or a query rests, taken in a turn of the pass, which has then seen
    /// the history that they are of. The turn is over when this returns.
    ///
    /// Errors: if memory runs out.
    fn rows_of_look<R: Wait>(
        &self,
        rt: &R,
        pass: &mut Pass<M, A>,
        ask: &Ask<A>,
    ) -> Result<SharedRows<A>, AllocError>
        requires look { is_look ask.now ≡ true }
        requires here { pass.old.table ≡ self.now.table }
        requires left { pass.old.calls < most_calls }
        ensures pass { HasObserved pass.old pass.new }
        ensures rows { IfOk result (λ rows. rows ≡ rows_for pass.new.settings pass.new.seen ask.now) }
        ensures lacks { OnErr result (is_granted (reply_from (rows_for pass.new.settings pass.new.seen ask.now) ask.now) ≡ true) }
        ensures small { SmallReply (reply_from (rows_for pass.new.settings pass.new.seen ask.now) ask.now) }
    {
        let _held = self.ticket_lock.lock(rt);
        let shelf = &self.table.shared;
        let (rows, seen) = look_in_turn(rt, shelf, &mut pass.place, pass.number, ask);
        pass.front = seen;
        pass.calls += 1;
        rows
    }

    /// Makes a call of a pass that is an N-GET or a query: takes rows in a turn, and makes the reply from them outside of
    /// it, so that other passes have their turns meanwhile.
    fn look<R: Wait>(&self, rt: &R, pass: &mut Pass<M, A>, ask: &Ask<A>) -> Reply<A>
        requires look { is_look ask.now ≡ true }
        requires here { pass.old.table ≡ self.now.table }
        requires left { pass.old.calls < most_calls }
        ensures served { (ae : List ℕ) → (moment : ℕ) → IsServed pass.old ae moment ask.now result pass.new }
        ensures small { SmallReply result }
    {
        match self.rows_of_look(rt, pass, ask) {
            Ok(rows) => complete(ask, &rows),
            Err(_) => Reply::Status(lacking(ask)),
        }
    }

    /// Makes a call of a pass, whatever it asks, in its turn.
    fn call_in<R: Wait>(
        &self,
        rt: &R,
        pass: &mut Pass<M, A>,
        ae: Ae,
        moment: u64,
        ask: &mut Option<Ask<A>>,
    ) -> Reply<A>
        requires given { is_some ask.old ≡ true }
        requires moment { IsMoment moment }
        requires here { pass.old.table ≡ self.now.table }
        requires left { pass.old.calls < most_calls }
        ensures served { IfSome ask.old (λ asked. IsServed pass.old ae moment asked result pass.new) }
        ensures small { SmallReply result }
    {
        let _held = self.ticket_lock.lock(rt);
        let shelf = &self.table.shared;
        let (reply, entries) = call_in_turn(
            rt,
            shelf,
            &mut pass.place,
            pass.number,
            ae,
            moment,
            ask,
        );
        pass.front = entries;
        pass.calls += 1;
        reply
    }

    /// Makes one call of a pass. A pass that has made 2^40 calls is refused. An N-GET and a query take references to rows
    /// in a turn, and are answered outside of it; anything else is answered in the turn. Only the manager takes the ask
    /// out of its option: an ask takes some 200 bytes, which are not moved on the way.
    pub(crate) fn call<R: Wait>(
        &self,
        rt: &R,
        pass: &mut Pass<M, A>,
        ae: Ae,
        moment: u64,
        ask: &mut Option<Ask<A>>,
    ) -> Reply<A>
        requires given { is_some ask.old ≡ true }
        requires moment { IsMoment moment }
        requires here { pass.old.table ≡ self.now.table }
        ensures called { IfSome ask.old (λ asked. IsCall pass.old ae moment asked result pass.new) }
        ensures legal { is_legal pass.old.settings pass.old.seen }
        ensures small { SmallReply result }
    {
        let Some(asked) = ask.as_ref() else {
            unreachable!();
        };
        if pass.calls >= MOST_CALLS {
            return Reply::Status(lacking(asked));
        }
        if is_look(asked) {
            return self.look(rt, pass, asked);
        }
        self.call_in(rt, pass, ae, moment, ask)
    }

    /// Shows the history to an observer in a turn of the pass, which has then seen it too. This enters nothing, but
    /// counts as a call. Returns false, and shows nothing, if the pass has made 2^40 calls.
    pub fn observe<O: Observer<A>, R: Wait>(
        &self,
        rt: &R,
        pass: &mut Pass<M, A>,
        observer: &mut O,
    ) -> bool
        requires here { pass.old.table ≡ self.now.table }
        ensures left { result ≡ nat_lt pass.old.calls most_calls }
        ensures pass { MatchBool result (HasObserved pass.old pass.new) (pass.new ≡ pass.old) }
        ensures observed { MatchBool result (O.observed observer.old pass.new.seen observer.new) (observer.new ≡ observer.old) }
    {
        let is_spent = pass.calls >= MOST_CALLS;
        if is_spent {
            return false;
        }
        let _held = self.ticket_lock.lock(rt);
        let shelf = &self.table.shared;
        let seen = observe_in_turn(rt, shelf, &mut pass.place, pass.number, observer);
        pass.front = seen;
        pass.calls += 1;
        true
    }

    /// Returns the number of events that wait for a watcher (PS3.4 CC.2.4) after the history that the pass has seen then:
    /// they are counted in a turn of the pass. This enters nothing, but counts as a call. Returns None, and counts
    /// nothing, if the pass has made 2^40 calls.
    pub fn waiting<R: Wait>(&self, rt: &R, pass: &mut Pass<M, A>, ae: Ae) -> Option<usize>
        requires here { pass.old.table ≡ self.now.table }
        ensures left { is_some result ≡ nat_lt pass.old.calls most_calls }
        ensures pass { MatchOption result (pass.new ≡ pass.old) (λ count. HasObserved pass.old pass.new) }
        ensures count { IfSome result (λ count. count ≡ length (pending pass.new.settings (past pass.new.seen) ae)) }
    {
        let has_none_left = pass.calls >= MOST_CALLS;
        if has_none_left {
            return None;
        }
        let _held = self.ticket_lock.lock(rt);
        let shelf = &self.table.shared;
        let (count, seen) = waiting_in_turn(rt, shelf, &mut pass.place, pass.number, ae);
        pass.front = seen;
        pass.calls += 1;
        Some(count)
    }

    /// Does some of the work that no answer depends on in a turn of the pass, so little at each call that no other pass
    /// waits for long: lets requests before the one at index `upto` of the history leave memory, if nothing that is asked
    /// later can need them, and prepares rows for queries. This enters nothing, but counts as a call. Returns whether
    /// there is more to do, or None, and does nothing, if the pass has made 2^40 calls.
    pub fn maintain<R: Wait>(&self, rt: &R, pass: &mut Pass<M, A>, upto: usize) -> Option<bool>
        requires here { pass.old.table ≡ self.now.table }
        ensures left { is_some result ≡ nat_lt pass.old.calls most_calls }
        ensures pass { MatchOption result (pass.new ≡ pass.old) (λ is_more. HasObserved pass.old pass.new) }
    {
        let is_done = pass.calls >= MOST_CALLS;
        if is_done {
            return None;
        }
        let _held = self.ticket_lock.lock(rt);
        let shelf = &self.table.shared;
        let (is_more, seen) = maintain_in_turn(rt, shelf, &mut pass.place, pass.number, upto);
        pass.front = seen;
        pass.calls += 1;
        Some(is_more)
    }

    /// Waits until the number of entered requests differs from `known`, for at most `limit`, and returns it. This takes
    /// no turn, and no pass waits for it; one thread at a time may wait like this. Others may enter requests meanwhile,
    /// so nothing is promised of the result.
    pub fn await_entries<R: Wait>(&self, rt: &R, known: u64, limit: Duration) -> u64 {
        let shelf = &self.table.shared;
        self.awaited.store(SOMEBODY, Ordering::SeqCst);
        if shelf.peek(COUNT) == known {
            shelf.park_timeout(rt, COUNT, low_half(known), limit);
        }
        self.awaited.store(NOBODY, Ordering::SeqCst);
        shelf.peek(COUNT)
    }

    /// Wakes the thread that waits for further entries, if there is one, unless their number is still `before`.
    pub(crate) fn announce(&self, before: u64, entries: u64) {
        if entries != before && self.awaited.load(Ordering::SeqCst) != NOBODY {
            self.table.shared.wake_all(COUNT);
        }
    }

    // Makes `pass` learn what `from` has seen.
    fn tell(&self, pass: &mut Pass<M, A>, from: &mut Pass<M, A>)
        requires pass { pass.old.table ≡ self.now.table }
        requires from { from.old.table ≡ self.now.table }
        ensures from { from.new ≡ from.old }
        ensures learns { Learns pass.old from.old pass.new }
    {
        let shelf = &self.table.shared;
        let told = note(shelf, &mut from.place);
        absorb(shelf, &mut pass.place, told);
        settle(shelf, &mut pass.place);
        pass.front = pass.front.max(from.front);
    }

    /// Makes two passes tell each other what they have seen: both then have seen the longer of the two histories.
    /// Returns the number of its entries. Nobody waits.
    pub fn meet(&self, left: &mut Pass<M, A>, right: &mut Pass<M, A>) -> u64
        requires left { left.old.table ≡ self.now.table }
        requires right { right.old.table ≡ self.now.table }
        ensures same { SamePass left.old left.new × SamePass right.old right.new }
        ensures calls { (left.new.calls ≡ left.old.calls) × (right.new.calls ≡ right.old.calls) }
        ensures one { left.new.seen ≡ right.new.seen }
        ensures front { left.new.seen ≡ longer right.old.seen left.old.seen }
        ensures left { Behind left.new.seen (part_of left.old) }
        ensures right { Behind right.new.seen (part_of right.old) }
        ensures legal { is_legal left.new.settings left.new.seen }
        ensures count { result ≡ length left.new.seen }
    {
        self.tell(right, left);
        self.tell(left, right);
        left.front
    }

    /// Closes the desk, and returns its manager. No call of a pass is under way, since all passes are here.
    ///
    /// # Errors
    ///
    /// `Missing` if these are not all of its passes: the desk and the passes are returned as they were.
    pub fn close(
        self,
        passes: Vec<Pass<M, A>, A>,
    ) -> Result<M, (Desk<M, A>, Vec<Pass<M, A>, A>, CloseFault)>
        requires here { All (λ p. p.table ≡ self.table) passes.items }
        ensures settings { IfOk result (λ m. (M.state m).settings ≡ self.opening.settings) }
        ensures legal { IfOk result (λ m. is_legal (M.state m).settings (M.state m).history) }
        ensures callers { IfOk result (λ m. EnteredByPasses self.seats self.opening.history (M.state m).history) }
        ensures passes { IfOk result (λ m. EndsFor (M.state m).history passes.items) }
        ensures all { OnOk result (length passes.items ≡ self.seats) }
        ensures numbers { OnOk result (HaveNumbers self.seats passes.items) }
        ensures refused { IfErr result (λ r. (r.0 ≡ self) × (r.1.items ≡ passes.items) × (length passes.items ≢ self.seats)) }
    {
        if passes.len() as u64 != self.seats {
            return Err((self, passes, CloseFault::Missing));
        }
        let Desk {
            table,
            seats: _,
            ticket_lock: _,
            awaited: _,
        } = self;
        let place = gather(&table.shared, passes);
        let mut closed = table.close_with(place);
        let slot = closed.take(0);
        closed.free();
        let Some(manager) = slot else { unreachable!() };
        Ok(manager.into_shared())
    }
}
