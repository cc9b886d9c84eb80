//! The state of the service: the history of accepted requests, and the steps.

ghost use Rattle.std.specs.Prelude.{[], ◌≡◌, ◌≤◌, ◌<◌, ◌^◌, ◌+◌, ◌++◌, List, None, Some, is_some, true, length, drop, All, IfOk, IfErr, OnOk, OnErr};
ghost use Rattle.std.specs.List.{AllByRecursion};
ghost use Rattle.std.specs.Option.{IfSome, unwrap_or};
ghost use Rattle.ups_dataset.specs.Data.{El};
ghost use Rattle.ups_match.specs.Matching.{is_match};
ghost use Rattle.ups_life.specs.declared.request.Ask.TheVariants.{Do};
ghost use Rattle.ups_life.specs.declared.request.Reply.TheVariants.{Sets as Found, Reports};
ghost use Rattle.ups_cycle.specs.declared.status.Status.TheVariants.{ResourceLimitation, OutOfResources};
ghost use Rattle.ups_life.specs.Limits.{history_limit, peer_limit};
ghost use Rattle.ups_life.specs.Settings.{IsMoment, IsOffset};
ghost use Rattle.ups_life.specs.Steps.{past};
ghost use Rattle.ups_life.specs.declared.watching.Watched.{Watched};
ghost use Rattle.ups_life.specs.Watching.{held, watched};
ghost use Rattle.ups_life.specs.Events.{acked, events, pending, view, present};
ghost use Rattle.ups_life.specs.History.{got};
ghost use Rattle.ups_life.specs.Worklist.{worklist};
ghost use Rattle.ups_settings.specs.declared.fault.ManagerFault.TheVariants.{Memory};
ghost use Rattle.ups_rows.specs.Answering.{answers_among};
ghost use Rattle.ups_manager.specs.Held.{holder_of};
ghost use Rattle.ups_manager.specs.Room.{most_for};
ghost use Rattle.ups_tables.specs.Seen.{Once};
ghost use Rattle.ups_service.specs.Asked.{asked_rows, IsAsked, NotesAsked};
ghost use Rattle.ups_service.specs.Law.{OrLacking, Answers, SmallReply, entered, is_granted, is_legal};
ghost use Rattle.ups_service.specs.Looking.{is_look, rows_for, reply_from};
ghost use Rattle.ups_settings.specs.Refusal.{refusal};
ghost use Rattle.ups_service.specs.Reporting.{reports_to};

use crate::answering::answer_call;
use crate::left_memory::LeftMemory;
use crate::memory;
use crate::peers::{acked_at, all_pending, first_pending, made_at, waiting_at, watched_in};
use crate::reporting::reports_of;
use crate::rows::{find, uids_of};
use crate::submitting::{MOST_IN_MEMORY, most_in_memory};
use crate::worklist::{prepare_rows, row_of_step, rows_of_class};
use std::alloc::{AllocError, Allocator};
use std::marker::Model;
use ups_cycle::Status;
use ups_dataset::Tag;
use ups_history::History;
use ups_index::Index;
use ups_life::{
    Ask, Configuration, Entry, Event, Holder, MAX_HISTORY, Peer, Reply, StepUid, Watched,
};
use ups_match::{Keys, Matcher, Probe};
use ups_pdu::Ae;
use ups_rows::SharedRows;
use ups_service::{found_among, shown_first};
use ups_settings::{ManagerFault, refusal};
use ups_tables::{Tables, begin, place_of};

/// The most requests in a history that has no end. At a thousand a second it lasts for a hundred million years.
pub const LASTING_LIMIT: u64 = 1 << 62;

/// The manager: the history of accepted requests, tables of the state that they lead to, and an index of the held
/// steps. A contract sees it as what was fixed at the start, the history, oldest entry first, the number of held steps
/// about which its last query asked a matcher, and the number of entries before those that are all in memory.
pub struct Manager<A: Allocator + Copy> {
    alloc: A,
    configuration: Configuration<A>,
    history: History<A>,
    tables: Tables<A>,
    index: Index<A>,
    reserve: LeftMemory<A>,
    /// The number of held steps about which the last query asked a matcher.
    asked: u64,
    /// The index, among the entries that stayed in memory for an event, of the next one to look at again.
    again: usize,
}

impl<A: Allocator + Copy> Drop for Manager<A> {
    fn drop(self) {
        let Manager {
            alloc: _,
            configuration: _,
            history: _,
            tables: _,
            index: _,
            reserve: _,
            asked: _,
            again: _,
        } = self;
    }
}

impl<A: Allocator + Copy> Model for Manager<A> {
    ghost use Rattle.ups_manager.specs.View.{ManagerView};

    ghost Value = { ManagerView A };

    ghost use Rattle.std.specs.Coded.{codes};
    ghost use Rattle.ups_dataset.specs.Code.{set_code};

    ghost coded = { Prim.hlevel (set_code, codes) };

    ghost view = { λ m. record { settings = m.configuration; history = m.history.entries; asked = m.asked; first = m.history.first } };

    ghost use Rattle.ups_manager.specs.Kept.{IsKeptInside};

    ghost invariant = { IsKeptInside };
}

impl<A: Allocator + Copy> Manager<A> {
    /// Returns a manager with an empty history, which allocates from `alloc`. `peers` are the application entities that
    /// may watch steps; a finished step is kept for at least `keep` seconds; `offset` is the offset of local time from
    /// UTC in minutes, positive east of it; at most `limit` requests are entered.
    ///
    /// # Errors
    ///
    /// The first of these: `TwicePeer` if two peers have the same title; `BadLimit` if `limit` is 0 or above 1,000,000;
    /// `BadOffset` if `offset` is below -720 or above 840 (PS3.5 section 6.2, DT); `Memory` if memory runs out.
    pub fn new(
        alloc: A,
        peers: &[Peer],
        keep: u32,
        offset: i16,
        limit: u64,
    ) -> Result<Manager<A>, ManagerFault>
        requires { length peers.now ≤ peer_limit }
        ensures allowed { OnOk result (refusal peers.now offset limit ≡ None) }
        ensures settings { IfOk result (λ m. m.settings ≡ record { peers = peers.now; keep = keep; offset = offset; limit = limit }) }
        ensures history { IfOk result (λ m. m.history ≡ []) }
        ensures asked { IfOk result (λ m. m.asked ≡ 0) }
        ensures first { IfOk result (λ m. m.first ≡ 0) }
        ensures refused { IfErr result (λ fault. fault ≡ unwrap_or (refusal peers.now offset limit) Memory) }
    {
        if let Some(fault) = refusal(peers, offset, limit) {
            return Err(fault);
        }
        Ok(Manager::begin(alloc, peers, keep, offset, limit)?)
    }

    /// Returns a manager with an empty history that has no end, as [`Manager::new`] does: its limit is `LASTING_LIMIT`,
    /// and of its requests 1,000,000 may be in memory at one time.
    ///
    /// # Errors
    ///
    /// The first of these: `TwicePeer` if two peers have the same title; `BadOffset` if `offset` is below -720 or above
    /// 840 (PS3.5 section 6.2, DT); `Memory` if memory runs out.
    pub fn lasting(
        alloc: A,
        peers: &[Peer],
        keep: u32,
        offset: i16,
    ) -> Result<Manager<A>, ManagerFault>
        requires { length peers.now ≤ peer_limit }
        ensures allowed { OnOk result (refusal peers.now offset MAX_HISTORY ≡ None) }
        ensures settings { IfOk result (λ m. m.settings ≡ record { peers = peers.now; keep = keep; offset = offset; limit = LASTING_LIMIT }) }
        ensures history { IfOk result (λ m. m.history ≡ []) }
        ensures asked { IfOk result (λ m. m.asked ≡ 0) }
        ensures first { IfOk result (λ m. m.first ≡ 0) }
        ensures refused { IfErr result (λ fault. fault ≡ unwrap_or (refusal peers.now offset MAX_HISTORY) Memory) }
    {
        if let Some(fault) = refusal(peers, offset, MAX_HISTORY) {
            return Err(fault);
        }
        Ok(Manager::begin(alloc, peers, keep, offset, LASTING_LIMIT)?)
    }

    /// Returns a manager with an empty history, for settings that are not refused.
    ///
    /// Errors: if memory runs out.
    fn begin(
        alloc: A,
        peers: &[Peer],
        keep: u32,
        offset: i16,
        limit: u64,
    ) -> Result<Manager<A>, AllocError>
        requires few { length peers.now ≤ peer_limit }
        requires titles { Once peers.now }
        requires offset { IsOffset offset }
        ensures settings { IfOk result (λ m. m.settings ≡ record { peers = peers.now; keep = keep; offset = offset; limit = limit }) }
        ensures history { IfOk result (λ m. m.history ≡ []) }
        ensures asked { IfOk result (λ m. m.asked ≡ 0) }
        ensures first { IfOk result (λ m. m.first ≡ 0) }
    {
        let named = Vec::from_slice(alloc, peers)?;
        let configuration = Configuration::new(named, keep, offset, limit);
        let tables = begin(alloc, &configuration)?;
        Ok(Manager {
            alloc,
            configuration,
            history: History::new(alloc),
            tables,
            index: Index::new(alloc, offset),
            reserve: LeftMemory::new(alloc),
            asked: 0,
            again: 0,
        })
    }

    /// Returns the peers that may watch steps.
    pub fn peers(&self) -> &[Peer]
        ensures { result.now ≡ self.now.settings.peers }
    {
        self.configuration.peers()
    }

    /// Returns the least number of seconds for which a finished step is kept.
    pub fn keep(&self) -> u32
        ensures { result ≡ self.now.settings.keep }
    {
        self.configuration.keep()
    }

    /// Returns the offset of local time from UTC in minutes, positive east of it.
    pub fn offset(&self) -> i16
        ensures value { result ≡ self.now.settings.offset }
        ensures within { IsOffset self.now.settings.offset }
    {
        self.configuration.offset()
    }

    /// Returns the greatest number of requests that may be entered.
    pub fn limit(&self) -> u64
        ensures { result ≡ self.now.settings.limit }
    {
        self.configuration.limit()
    }

    /// Returns the accepted requests, oldest first, from the first one on behind which all are in memory. These are all,
    /// unless the history has no end ([`Manager::lasting`]) and some were let go of.
    pub fn history(&self) -> &[Entry<A>]
        ensures whole { self.now.settings.limit ≤ history_limit → result.now ≡ self.now.history }
        ensures shown { result.now ≡ drop self.now.first self.now.history }
        ensures legal { is_legal self.now.settings self.now.history }
        ensures moments { All (λ e. IsMoment e.moment) result.now }
    {
        self.history.recent()
    }

    /// Returns all accepted requests, oldest first, or None if some may have left memory, as they do only where the
    /// history has no end.
    pub fn whole(&self) -> Option<&[Entry<A>]>
        ensures all { self.now.settings.limit ≤ history_limit → is_some result ≡ true }
        ensures whole { IfSome result (λ h. h.now ≡ self.now.history) }
        ensures legal { is_legal self.now.settings self.now.history }
        ensures moments { IfSome result (λ h. All (λ e. IsMoment e.moment) h.now) }
    {
        self.history.since(0)
    }

    /// Returns the number of accepted requests.
    pub fn entries(&self) -> usize
        ensures count { result ≡ length self.now.history }
        ensures legal { is_legal self.now.settings self.now.history }
    {
        self.history.len()
    }

    /// Returns all accepted requests, oldest first, as far as they are in memory.
    pub(crate) fn all(&self) -> &History<A>
        ensures { result.now.entries ≡ self.now.history }
    {
        &self.history
    }

    /// Lets requests before the one at index `upto` of the history leave memory, if the history has no end
    /// ([`Manager::lasting`]); else all stay. Those stay that an event is of which is pending for a watcher (PS3.4 CC.2.4):
    /// no other is needed for what is asked later. A call looks at `LOOKED_AT` requests, and again at as many that
    /// stayed, at most, so that it takes no long time, and no reply tells whether they have left. Returns whether a
    /// further call has more to look at, or may let more go.
    pub fn let_go(&mut self, upto: usize) -> bool
        ensures settings { self.new.settings ≡ self.old.settings }
        ensures history { self.new.history ≡ self.old.history }
        ensures asked { self.new.asked ≡ self.old.asked }
    {
        let Manager {
            configuration,
            history,
            tables,
            again,
            ..
        } = self;
        let (is_more, next) = memory::let_go(configuration, history, tables, upto, *again);
        *again = next;
        is_more
    }

    /// Prepares some of the rows of all steps, so that a query without an indexed key finds them shared. A call prepares so
    /// few that it takes no long time. Returns whether a further call may find more of them; false if memory runs out,
    /// and the next such query then prepares what it needs.
    pub(crate) fn prepare(&mut self) -> bool
        ensures { self.new ≡ self.old }
    {
        prepare_rows(self.alloc, &mut self.tables)
    }

    /// Returns the UIDs of the held steps, in order of creation.
    ///
    /// # Errors
    ///
    /// If memory runs out.
    pub fn held(&self) -> Result<Vec<StepUid, A>, AllocError>
        ensures { IfOk result (λ v. v.items ≡ held self.now.settings (past self.now.history)) }
    {
        uids_of(self.alloc, &self.tables)
    }

    /// Returns the steps that a watcher is subscribed to, in order of creation, each with its subscription (PS3.4
    /// CC.2.3); none for an application entity that is no peer. The last State Report of each step among the watcher's
    /// events shows its present state and readiness.
    ///
    /// # Errors
    ///
    /// If memory runs out.
    pub fn watches(&self, ae: Ae) -> Result<Vec<Watched, A>, AllocError>
        ensures watched { IfOk result (λ v. v.items ≡ watched self.now.settings (past self.now.history) ae) }
        ensures view { IfOk result (λ v. AllByRecursion (λ (x : Watched). view (events self.now.settings (past self.now.history) ae) x.step ≡ Some (present self.now.settings (past self.now.history) x.step)) v.items) }
    {
        let uids = uids_of(self.alloc, &self.tables)?;
        let place = place_of(self.configuration.peers(), ae);
        watched_in(self.alloc, &self.tables, place, uids.as_slice())
    }

    /// Answers an N-GET (PS3.4 CC.2.7): with C307 for a step that is not held, and with 0213 if memory runs out.
    pub fn get(&self, step: Option<StepUid>, attributes: &[Tag]) -> Reply<A>
        ensures answer { OrLacking ResourceLimitation (got self.now.settings (past self.now.history) step attributes.now) result }
        ensures small { SmallReply result }
        ensures legal { is_legal self.now.settings self.now.history }
    {
        match row_of_step(self.alloc, &self.tables, step) {
            Ok(rows) => shown_first(&rows, attributes),
            Err(_) => Reply::Status(Status::ResourceLimitation),
        }
    }

    /// Answers a C-FIND (PS3.4 sections CC.2.8 and C.4.1): with those of the held steps that have the first indexed key
    /// of the query, if it has one, and that the matcher accepts, in order of creation, each with the attributes that
    /// the keys name. These are all steps that match if the matcher follows the rules of PS3.4, as a `Probe` does. The
    /// matcher is asked once about each step that has the first indexed key, and about no other. The reply is A700 if
    /// memory runs out.
    pub fn find<M: Matcher>(&mut self, keys: &Keys<A>, matcher: &mut M) -> Reply<A>
        requires count { M.asked matcher.old < 2 ^ 63 }
        ensures answer { OrLacking OutOfResources (Found (answers_among (M.says keys.now) keys.now.attributes (asked_rows self.old.settings (past self.old.history) keys.now))) result }
        ensures whole { ((row : List El) → M.says keys.now row ≡ is_match keys.now row) → OrLacking OutOfResources (Found (worklist self.old.settings (past self.old.history) keys.now)) result }
        ensures asked { IsAsked (M.asked matcher.old) (length (asked_rows self.old.settings (past self.old.history) keys.now)) (M.asked matcher.new) result }
        ensures legal { is_legal self.old.settings self.old.history }
        ensures same { self.new ≡ self.old }
    {
        match self.rows_of_query(keys) {
            Ok(rows) => found_among(&rows, keys, matcher),
            Err(_) => Reply::Status(Status::OutOfResources),
        }
    }

    /// Returns the rows of the steps of a query's class. Nothing changes but the parts of rows that are kept for the next
    /// query.
    ///
    /// Errors: if memory runs out.
    fn rows_of_query(&mut self, keys: &Keys<A>) -> Result<SharedRows<A>, AllocError>
        ensures rows { IfOk result (λ rows. rows ≡ asked_rows self.old.settings (past self.old.history) keys.now) }
        ensures legal { is_legal self.old.settings self.old.history }
        ensures same { self.new ≡ self.old }
    {
        let Manager {
            alloc,
            tables,
            index,
            ..
        } = self;
        rows_of_class(*alloc, tables, index, keys)
    }

    /// Returns the rows on which the reply to an N-GET or a query rests. [`complete`](ups_service::complete) makes the reply
    /// from them without the manager. The rows are shared, not copied.
    ///
    /// # Errors
    ///
    /// If memory runs out, as it can't for a step that is not held.
    pub fn look(&mut self, ask: &Ask<A>) -> Result<SharedRows<A>, AllocError>
        requires look { is_look ask.now ≡ true }
        ensures rows { IfOk result (λ rows. rows ≡ rows_for self.old.settings self.old.history ask.now) }
        ensures lacks { OnErr result (is_granted (reply_from (rows_for self.old.settings self.old.history ask.now) ask.now) ≡ true) }
        ensures small { SmallReply (reply_from (rows_for self.old.settings self.old.history ask.now) ask.now) }
        ensures legal { is_legal self.old.settings self.old.history }
        ensures same { self.new ≡ self.old }
    {
        match ask {
            Ask::Get { step, .. } => row_of_step(self.alloc, &self.tables, *step),
            Ask::Find(keys) => self.rows_of_query(keys),
            Ask::Do(_) | Ask::Pending { .. } => unreachable!(),
        }
    }

    /// Returns the first `max` of the events that a watcher has not acknowledged, oldest first, each with its Event
    /// Information (PS3.4 CC.2.4), without each State Report that a later one of the same step supersedes; none for an
    /// application entity that is no peer. The reply is 0213 if memory runs out.
    pub fn pending(&self, ae: Ae, max: u64) -> Reply<A>
        ensures answer { OrLacking ResourceLimitation (Reports (reports_to self.now.settings self.now.history max ae)) result }
        ensures small { SmallReply result }
        ensures legal { is_legal self.now.settings self.now.history }
    {
        let place = place_of(self.configuration.peers(), ae);
        let Ok(events) = first_pending(self.alloc, &self.tables, place, max) else {
            return Reply::Status(Status::ResourceLimitation);
        };
        match reports_of(self.alloc, &self.history, events.as_slice()) {
            Ok(reports) => Reply::Reports(reports),
            Err(_) => Reply::Status(Status::ResourceLimitation),
        }
    }

    /// Returns the events that [`Manager::pending`] reports, all of them, without their Event Information (PS3.4 CC.2.4).
    ///
    /// # Errors
    ///
    /// If memory runs out.
    pub fn events_waiting(&self, ae: Ae) -> Result<Vec<Event, A>, AllocError>
        ensures { IfOk result (λ v. v.items ≡ pending self.now.settings (past self.now.history) ae) }
    {
        let place = place_of(self.configuration.peers(), ae);
        all_pending(self.alloc, &self.tables, place)
    }

    /// Returns the number of events that wait for a watcher (PS3.4 CC.2.4), without each State Report that a later one
    /// of the same step supersedes; 0 for an application entity that is no peer. It takes no memory.
    pub fn waiting(&self, ae: Ae) -> usize
        ensures { result ≡ length (pending self.now.settings (past self.now.history) ae) }
    {
        let place = place_of(self.configuration.peers(), ae);
        waiting_at(&self.tables, place)
    }

    /// Returns the number of events that were made for a watcher (PS3.4 CC.2.4), those that it has acknowledged and
    /// those that are superseded too; 0 for an application entity that is no peer. It takes no memory.
    pub fn events_made(&self, ae: Ae) -> u64
        ensures { result ≡ length (events self.now.settings (past self.now.history) ae) }
    {
        let place = place_of(self.configuration.peers(), ae);
        made_at(&self.tables, place)
    }

    /// Returns the number of the last event that a watcher has acknowledged, or 0 if it has acknowledged none. It takes
    /// no memory.
    pub fn events_acknowledged(&self, ae: Ae) -> u64
        ensures { result ≡ acked (past self.now.history) ae }
    {
        let place = place_of(self.configuration.peers(), ae);
        acked_at(&self.tables, place)
    }

    /// Returns the holder of a step: the caller that has claimed it, and its application entity (PS3.4 CC.1.1), or None
    /// if nobody has claimed it or it is not held.
    pub fn holder(&self, step: StepUid) -> Option<Holder>
        ensures holder { result ≡ holder_of self.now.settings (past self.now.history) step }
    {
        match find(&self.tables, step) {
            Some(held) => held.holder,
            None => None,
        }
    }

    /// Answers a call, given as the entry that it would become, by the history, and enters it if it is accepted and fewer
    /// than `most` entries are in memory.
    fn submit_within(&mut self, call: Entry<A>, most: u64) -> Reply<A>
        requires moment { IsMoment call.moment }
        requires most { most_for call.request ≤ most }
        ensures answer { Answers self.old.settings self.old.history call.caller call.ae call.moment (Do call.request) result }
        ensures history { self.new.history ≡ self.old.history ++ entered call.caller call.ae call.moment (Do call.request) result }
        ensures settings { self.new.settings ≡ self.old.settings }
        ensures asked { self.new.asked ≡ self.old.asked }
        ensures first { self.new.first ≡ self.old.first }
        ensures small { SmallReply result }
        ensures legal { is_legal self.old.settings self.old.history }
        ensures legal_after { is_legal self.new.settings self.new.history }
    {
        let Manager {
            alloc,
            configuration,
            history,
            tables,
            index,
            reserve,
            ..
        } = self;
        answer_call(
            *alloc,
            configuration,
            reserve,
            history,
            tables,
            index,
            call,
            most,
        )
    }

    /// Answers a call, given as the entry that it would become, by the history, and enters it if it is accepted. The
    /// reply 0213 also means that memory ran out or that a creation would not leave 16 MiB of it. After it, and after
    /// any other refusal, nothing has changed. It takes a tenth more entries in memory than [`Manager::answer_as`], so that
    /// what was entered can be entered again.
    pub fn submit(&mut self, call: Entry<A>) -> Reply<A>
        requires moment { IsMoment call.moment }
        ensures answer { Answers self.old.settings self.old.history call.caller call.ae call.moment (Do call.request) result }
        ensures history { self.new.history ≡ self.old.history ++ entered call.caller call.ae call.moment (Do call.request) result }
        ensures settings { self.new.settings ≡ self.old.settings }
        ensures asked { self.new.asked ≡ self.old.asked }
        ensures first { self.new.first ≡ self.old.first }
        ensures small { SmallReply result }
        ensures legal { is_legal self.old.settings self.old.history }
        ensures legal_after { is_legal self.new.settings self.new.history }
    {
        self.submit_within(call, MOST_IN_MEMORY)
    }

    /// Answers a C-FIND by the rules of PS3.4, and notes about how many held steps it asked.
    fn find_noted(&mut self, keys: &Keys<A>) -> Reply<A>
        ensures answer { OrLacking OutOfResources (Found (worklist self.old.settings (past self.old.history) keys.now)) result }
        ensures asked { IsAsked 0 (length (asked_rows self.old.settings (past self.old.history) keys.now)) self.new.asked result }
        ensures history { self.new.history ≡ self.old.history }
        ensures settings { self.new.settings ≡ self.old.settings }
        ensures first { self.new.first ≡ self.old.first }
        ensures legal { is_legal self.old.settings self.old.history }
    {
        let mut probe = Probe::new();
        let reply = self.find(keys, &mut probe);
        let Manager { asked, .. } = self;
        *asked = probe.count();
        reply
    }

    /// Returns the number of held steps about which the last query that `answer_as` answered asked whether they match; 0
    /// if there was none.
    pub fn asked(&self) -> u64
        ensures { result ≡ self.now.asked }
    {
        self.asked
    }

    /// Answers what an application entity asks by the history, and enters it if it is a request that is accepted.
    /// `caller` is the number of the caller, and `moment` is in seconds since 1970-01-01 UTC. A query asks once about
    /// each held step of its class whether it matches, and about no other step. With 1,000,000 entries in memory, and
    /// another tenth for an acknowledgement, the end of a subscription or a sweep, a request that would be accepted gets
    /// 0213.
    pub fn answer_as(&mut self, caller: u32, ae: Ae, moment: u64, ask: Ask<A>) -> Reply<A>
        requires moment { IsMoment moment }
        ensures answer { Answers self.old.settings self.old.history caller ae moment ask result }
        ensures history { self.new.history ≡ self.old.history ++ entered caller ae moment ask result }
        ensures settings { self.new.settings ≡ self.old.settings }
        ensures asked { NotesAsked self.old.settings self.old.history ask result self.old.asked self.new.asked }
        ensures first { self.new.first ≡ self.old.first }
        ensures small { SmallReply result }
        ensures legal { is_legal self.old.settings self.old.history }
        ensures legal_after { is_legal self.new.settings self.new.history }
    {
        match ask {
            Ask::Do(request) => {
                let most = most_in_memory(&request);
                let call = Entry {
                    caller,
                    ae,
                    moment,
                    request,
                };
                self.submit_within(call, most)
            }
            Ask::Get { step, attributes } => self.get(step, attributes.as_slice()),
            Ask::Find(keys) => self.find_noted(&keys),
            Ask::Pending { max } => self.pending(ae, max),
        }
    }
}
