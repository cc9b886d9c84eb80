//! The workers of a server, and the threads in which they run.

ghost use Rattle.std.specs.Prelude.{◌≡◌, true, ◌≤◌, ◌+◌, ◌++◌, [], ◌∷◌, All, List, length, map, vec_capacity, is_some, IfSome, MatchOption, MatchBool};
ghost use Rattle.std.specs.Global.{Global};
ghost use denote.Param.Send.{IsSend, IsSync};
ghost use Rattle.ups_turn.specs.Pass.{PassView};
ghost use Rattle.ups_net.specs.Serving.{ServesAssociations};
ghost use Rattle.ups_net.specs.Sweeping.{Sweeps};
ghost use Rattle.ups_ledger.specs.Backed.{Backs};
ghost use Rattle.ups_ledger.specs.Keeping.{KeepersGoOn};
ghost use Rattle.ups_net.specs.Working.{EndsThread, EndThreads, Ran, seen_last};
ghost use Rattle.ups_net.specs.declared.options.ServerOptions.{ServerOptions};

use crate::address_book::AddressBook;
use crate::delivering::deliver_rounds;
use crate::monitor::tell_room;
use crate::options::ServerOptions;
use crate::server_state::ServerState;
use crate::serving::serve_one;
use crate::site::Site;
use crate::sweeping::sweep;
use log::Log;
use std::alloc::Global;
use std::snapshot::Snapshot;
use std::sync::{OnceLock, OnceToken, Wait};
use std::thread::{self, Promise, PromisedHandle, Threads};
use std::time::Clock;
use ups_ledger::{Keeper, Keeping, Ledger};
use ups_log::{Account, end_told};
use ups_service::SharedService;
use ups_transport::{Caller, Network, limit_of};
use ups_turn::{Desk, Pass};

/// Serves `options.associations` associations, one after another, each on a connection from the door of the server.
pub fn work<M: SharedService<Global>, K: Keeping, R: Wait + Clock + Log>(
    rt: &R,
    state: &ServerState<K>,
    desk: &Desk<M, Global>,
    pass: Pass<M, Global>,
    options: &ServerOptions,
) -> Pass<M, Global>
    requires here { pass.table ≡ desk.now.table }
    ensures serves { ServesAssociations options.now.config options.now.limits.turns options.now.associations pass result }
    ensures stays { result.table ≡ pass.table }
{
    let site = Site {
        rt,
        desk,
        options,
        commits: &state.commits,
    };
    let door = &state.door;
    let tally = &state.tally;
    let mut pass = pass;
    for _ in 0..options.associations {
        let Caller {
            connection,
            address,
        } = door.next_connection(rt, options.limits.timeout);
        let number = door.next_number();
        let account = Account::new(rt, options.alloc, number, address, options.verbose, tally);
        let pressure = Some(door.take_worker(rt, options.alloc, number, address));
        let ends = connection.ends(limit_of(options.limits.timeout));
        let (after, ended, is_sent, _) = serve_one(site, ends, &account, pressure, pass);
        pass = after;
        account.tell_end(rt, &end_told(ended, is_sent));
        door.free_worker(rt, number);
    }
    pass
}

/// Waits to be told whether the threads begin.
fn told<'a, R: Wait>(rt: &R, start: &'a OnceLock<bool>) -> OnceToken<'a, bool>
    ensures { result.of ≡ start.now.id }
{
    for _ in rt.forever() {
        let _ = start.wait(rt);
        if let Some(token) = start.witness() {
            return token;
        }
    }
    unreachable!()
}

/// Tells the threads whether they begin. Nobody else tells them, so once is enough.
fn tell<'a, R: Wait>(rt: &R, start: &'a OnceLock<bool>, begin: bool) -> OnceToken<'a, bool>
    ensures lock { result.of ≡ start.now.id }
    ensures told { result.value ≡ begin }
{
    for _ in rt.forever() {
        if let Ok(token) = start.set(rt, begin) {
            return token;
        }
    }
    unreachable!()
}

/// Returns what the threads were told already, or else tells them to begin.
fn settle<'a, R: Wait>(
    rt: &R,
    start: &'a OnceLock<bool>,
    off: Option<OnceToken<'a, bool>>,
) -> OnceToken<'a, bool>
    requires lock { IfSome off (λ t. t.of ≡ start.now.id) }
    ensures lock { result.of ≡ start.now.id }
    ensures told { MatchOption off.entry (result.value ≡ true) (λ t. result.value ≡ t.value) }
{
    match off {
        Some(token) => token,
        None => tell(rt, start, true),
    }
}

/// Tells the supervisor that the server is ready, once its threads begin, and logs how much memory these leave.
fn tell_begun<R: Log + Network>(rt: &R, begun: bool) {
    if begun {
        rt.tell_supervisor("READY=1");
        tell_room(rt);
    }
}

/// Sweeps if the threads begin, and returns the pass of the sweeper and the ledger. Otherwise returns both as they
/// were.
fn sweep_begun<M: SharedService<Global>, K: Keeping, L: Ledger, R, B: AddressBook>(
    site: Site<'_, M, K, R>,
    state: &ServerState<K>,
    mut pass: Pass<M, Global>,
    begun: bool,
    keeper: Option<Keeper<L>>,
    book: B,
) -> (Pass<M, Global>, Option<Keeper<L>>)
where
    R: Threads + Wait + Clock + Log + Network,
    requires here { pass.table ≡ site.desk.now.table }
    requires backs { Backs L.Ledger K.had }
    ensures sweeps { MatchBool begun (Sweeps site.entry.options.now.config.ae (is_some keeper) site.entry.options.now.rounds pass result.0) (result.0 ≡ pass) }
    ensures keeps { is_some result.1 ≡ is_some keeper }
    ensures goes_on { KeepersGoOn L.Ledger keeper pass.seen result.1 result.0.seen }
{
    if !begun {
        return (pass, keeper);
    }
    let Site {
        rt,
        desk,
        options,
        ..
    } = site;
    let keeper = sweep(rt, state, desk, &mut pass, options, keeper, book);
    (pass, keeper)
}

/// Does the job of a thread once the threads begin: a worker serves associations, and a deliverer delivers event
/// reports. The number of its pass says which of them it is.
fn do_job<M: SharedService<Global>, K: Keeping, R>(
    rt: &R,
    state: &ServerState<K>,
    desk: &Desk<M, Global>,
    pass: Pass<M, Global>,
    options: &ServerOptions,
) -> Pass<M, Global>
where
    R: Wait + Clock + Log + Network,
    requires here { pass.table ≡ desk.now.table }
    ensures works { EndsThread options.now true pass result }
{
    if pass.number() <= options.limits.workers {
        return work(rt, state, desk, pass, options);
    }
    let site = Site {
        rt,
        desk,
        options,
        commits: &state.commits,
    };
    let roster = &state.roster;
    let share = roster.share_of(pass.number() - options.limits.workers);
    deliver_rounds(site, roster, share, pass)
}

/// Runs the thread of a pass: does its job if the threads begin, and returns the pass with what the thread was told.
fn attend<'a, M: SharedService<Global>, K: Keeping, R>(
    rt: &R,
    start: &'a OnceLock<bool>,
    state: &ServerState<K>,
    desk: &Desk<M, Global>,
    pass: Pass<M, Global>,
    options: &ServerOptions,
) -> (Pass<M, Global>, OnceToken<'a, bool>)
where
    R: Wait + Clock + Log + Network,
    requires here { pass.table ≡ desk.now.table }
    ensures lock { result.1.of ≡ start.now.id }
    ensures ends { EndsThread options.now result.1.value pass result.0 }
{
    let token = told(rt, start);
    if !*start.value(&token) {
        return (pass, token);
    }
    (do_job(rt, state, desk, pass, options), token)
}

/// The promise of a thread: if it was told to begin, the pass that it returns has done its job; otherwise the pass is
/// as it was.
#[derive(Drop)]
struct DoneJob<M: SharedService<Global>> {
    pass: Snapshot<Pass<M, Global>>,
    options: Snapshot<ServerOptions>,
    start: Snapshot<OnceLock<bool>>,
}

impl<'a, M: SharedService<Global>> Promise<(Pass<M, Global>, OnceToken<'a, bool>)> for DoneJob<M> {
    ghost use Rattle.std.specs.Prelude.{◌≡◌};
    ghost use Rattle.ups_net.specs.Working.{EndsThread};

    ghost kept_by = { λ p r. (r.1.of ≡ p.start.value.id) × EndsThread p.options.value r.1.value p.pass.value r.0 };
}

/// Joins these threads and appends their passes to those that are back, in the order of the threads. All of them were
/// told the same.
fn join_all<'a, M: SharedService<Global>, R: Threads>(
    rt: &R,
    token: &OnceToken<'a, bool>,
    handles: Vec<PromisedHandle<(Pass<M, Global>, OnceToken<'a, bool>), DoneJob<M>>>,
    passes: &mut Vec<Pass<M, Global>>,
)
    requires room { length passes.old.items + length handles.items ≤ vec_capacity passes.old }
    requires lock { All (λ h. h.promise.start.value.id ≡ token.now.of) handles.items }
    ensures capacity { vec_capacity passes.new ≡ vec_capacity passes.old }
    ensures ends { (options : ServerOptions) → All (λ h. h.promise.options.value ≡ options) handles.entry.items → (rest : List (PassView Global)) × (passes.new.items ≡ passes.old.items ++ rest) × EndThreads options token.now.value (map (λ h. h.promise.pass.value) handles.entry.items) rest }
{
    for handle in handles {
        let (pass, other) = handle.join(rt);
        token.agrees(&other);
        passes.push_reserved(pass);
    }
}

/// Appends the passes of threads that were not started to those that are back.
fn put_back<M: SharedService<Global>>(
    unbegun: Vec<Pass<M, Global>>,
    passes: &mut Vec<Pass<M, Global>>,
)
    requires room { length passes.old.items + length unbegun.items ≤ vec_capacity passes.old }
    ensures capacity { vec_capacity passes.new ≡ vec_capacity passes.old }
    ensures all { passes.new.items ≡ passes.old.items ++ unbegun.items }
{
    for pass in unbegun {
        passes.push_reserved(pass);
    }
}

/// The passes of a server before its threads begin, and room for them.
struct Crew<M: SharedService<Global>> {
    /// Those of the threads.
    passes: Vec<Pass<M, Global>>,
    /// That of the sweeper.
    sweeper: Pass<M, Global>,
    /// Room for those whose threads can't be started.
    unbegun: Vec<Pass<M, Global>>,
    /// Room for all that come back.
    back: Vec<Pass<M, Global>>,
}

/// Runs the threads of a server: one for each pass of the crew but that of the sweeper, which sweeps in this one.
///
/// The passes come back in their order, with that of the sweeper after them. If a thread can't be started, its pass and
/// those after it wait in `unbegun` until those before them are back. The sweeper has the ledger, if one is kept.
fn run_threads<M: SharedService<Global> + Send, K: Keeping + Send, L: Ledger, R, B: AddressBook>(
    rt: &R,
    state: &ServerState<K>,
    desk: &Desk<M, Global>,
    options: &ServerOptions,
    crew: Crew<M>,
    keeper: Option<Keeper<L>>,
    book: B,
) -> (bool, Vec<Pass<M, Global>>, Option<Keeper<L>>)
where
    R: Threads + Wait + Clock + Log + Sync + Network,
    requires here { All (λ p. p.table ≡ desk.now.table) crew.passes.items }
    requires backs { Backs L.Ledger K.had }
    requires sweeper { crew.sweeper.table ≡ desk.now.table }
    requires room { length crew.passes.items + 1 ≤ vec_capacity crew.back }
    requires spare { length crew.passes.items ≤ vec_capacity crew.unbegun }
    requires empty { (crew.back.items ≡ []) × (crew.unbegun.items ≡ []) }
    ensures ran { Ran options.now (is_some keeper) result.0 (crew.passes.items ++ crew.sweeper ∷ []) result.1.items }
    ensures keeps { is_some result.2 ≡ is_some keeper }
    ensures goes_on { KeepersGoOn L.Ledger keeper crew.sweeper.seen result.2 (seen_last result.1.items) }
{
    let Crew {
        passes,
        sweeper,
        mut unbegun,
        mut back,
    } = crew;
    let start = OnceLock::new();
    let start = &start;
    thread::scope(
        thread::scope_env(),
        rt,
        |scope| -> (bool, Vec<Pass<M, Global>>, Option<Keeper<L>>)
            requires send { IsSend M.row }
            requires send_keeping { IsSend K.row }
            requires sync { IsSync R.row }
            requires here { All (λ p. p.table ≡ desk.now.table) passes.items }
            requires backs { Backs L.Ledger K.had }
            requires sweeper { sweeper.table ≡ desk.now.table }
            requires room { length passes.items + 1 ≤ vec_capacity back }
            requires spare { length passes.items ≤ vec_capacity unbegun }
            requires empty { (back.items ≡ []) × (unbegun.items ≡ []) }
            ensures ran { Ran options.entry.now (is_some keeper) result.0 (passes.items ++ sweeper ∷ []) result.1.items }
            ensures keeps { is_some result.2 ≡ is_some keeper }
            ensures goes_on { KeepersGoOn L.Ledger keeper sweeper.seen result.2 (seen_last result.1.items) }
        {
            let Ok(mut handles) = Vec::with_capacity(options.alloc, passes.len()) else {
                put_back(passes, &mut back);
                back.push_reserved(sweeper);
                return (false, back, keeper);
            };
            let mut off = None;
            for pass in passes {
                if off.is_some() {
                    unbegun.push_reserved(pass);
                    continue;
                }
                let promise = DoneJob {
                    pass: Snapshot::of(&pass),
                    options: Snapshot::of(options),
                    start: Snapshot::of(start),
                };
                match scope.spawn_with(
                    promise,
                    move || -> (Pass<M, Global>, OnceToken<'_, bool>)
                        requires { pass.table ≡ desk.now.table }
                        ensures lock { result.1.of ≡ start.entry.now.id }
                        ensures ends { EndsThread options.entry.now result.1.value pass result.0 }
                    { attend(rt, start, state, desk, pass, options) },
                ) {
                    Ok(handle) => handles.push_reserved(handle),
                    Err(refused) => {
                        let token = tell(rt, start, false);
                        let (pass, other) = (refused.value)();
                        token.agrees(&other);
                        unbegun.push_reserved(pass);
                        off = Some(token);
                    }
                }
            }
            let token = settle(rt, start, off);
            let begun = *start.value(&token);
            tell_begun(rt, begun);
            let site = Site {
                rt,
                desk,
                options,
                commits: &state.commits,
            };
            let (swept, keeper) = sweep_begun(site, state, sweeper, begun, keeper, book);
            join_all(rt, &token, handles, &mut back);
            put_back(unbegun, &mut back);
            back.push_reserved(swept);
            (begun, back, keeper)
        },
    )
}

/// Runs a server: the last of `passes` sweeps in this thread, and each other one has a thread of its own.
///
/// The passes with numbers up to `options.limits.workers` are the workers', and those with greater numbers deliver
/// event reports: half of them, rounded up, to quick watchers, and the others to all; or a single one to all. The
/// passes come back in their order. If true is returned, each has done its job, as many associations or rounds of it as
/// `options` says; if false, each is as it was, since a thread could not be started, or memory ran out before. No
/// contract says that a thread runs, or when.
///
/// The sweeper looks into the address book for watchers that listen elsewhere. If a ledger is kept, it commits what is
/// entered. The ledger is given back: it has the beginning of the history that the sweeper's pass has seen, as far as it
/// is committed, if it had before.
pub fn run<M: SharedService<Global> + Send, K: Keeping + Send, L: Ledger, R, B: AddressBook>(
    rt: &R,
    state: &ServerState<K>,
    desk: &Desk<M, Global>,
    passes: Vec<Pass<M, Global>>,
    options: &ServerOptions,
    keeper: Option<Keeper<L>>,
    book: B,
) -> (bool, Vec<Pass<M, Global>>, Option<Keeper<L>>)
where
    R: Threads + Wait + Clock + Log + Sync + Network,
    requires some { 2 ≤ length passes.items }
    requires here { All (λ p. p.table ≡ desk.now.table) passes.items }
    requires backs { Backs L.Ledger K.had }
    ensures ran { Ran options.now (is_some keeper) result.0 passes.items result.1.items }
    ensures all { length result.1.items ≡ length passes.items }
    ensures stay { All (λ p. p.table ≡ desk.now.table) result.1.items }
    ensures keeps { is_some result.2 ≡ is_some keeper }
    ensures goes_on { KeepersGoOn L.Ledger keeper (seen_last passes.items) result.2 (seen_last result.1.items) }
{
    let Ok(back) = Vec::with_capacity(options.alloc, passes.len()) else {
        return (false, passes, keeper);
    };
    let Ok(unbegun) = Vec::with_capacity(options.alloc, passes.len()) else {
        return (false, passes, keeper);
    };
    let mut passes = passes;
    let Some(sweeper) = passes.pop() else {
        unreachable!()
    };
    let crew = Crew {
        passes,
        sweeper,
        unbegun,
        back,
    };
    run_threads(rt, state, desk, options, crew, keeper, book)
}
