//! Associations over TCP, and event reports.

ghost use Rattle.std.specs.Prelude.{◌≡◌, ◌≢◌, ◌≤◌, ◌+◌, ℕ, [], All, false, length, is_some, option_map, string_bytes, None, IfErr, IfOk, IfSome};
ghost use Rattle.clap.specs.Matches.{found_of};
ghost use Rattle.ups_peers.specs.Limits.{workers_limit};
ghost use Rattle.ups_settings.specs.Refusal.{refusal};
ghost use Rattle.ups_life.specs.Limits.{history_limit, peer_limit};
ghost use Rattle.ups_manager.specs.View.{shared_state};
ghost use Rattle.ups_ledger.specs.Backed.{Backs};
ghost use Rattle.ups_ledger.specs.Keeping.{AreKept, AreSafe, AreSound, KeepersGoOn, KeepsSeen};
ghost use Rattle.ups_net.specs.Working.{seen_last};
ghost use Rattle.ups_service.specs.Law.{is_legal};
ghost use Rattle.ups_turn.specs.Pass.{passes_from, EndsFor};
ghost use Rattle.ups_server.specs.Serving.{deliverers_of, seats_of, settings_asked, BeginsOn, HasBegun, RanAsAsked, RanAsWords};

use crate::checking::{can_listen, tell_unheard};
use crate::opener::{StoreOpener, Unopened};
use crate::telling::tell_settings;
use clap::ArgMatches;
use log::{Log, info};
use std::alloc::{AllocError, Global};
use std::marker::Brand;
use std::sync::Wait;
use std::thread::Threads;
use std::time::Clock;
use std::{io, str};
use ups_args::{ArgumentFault, ServeArguments, VERSION, serve_arguments};
use ups_assoc::Config;
use ups_ledger::{Commits, Keeper, Keeping, Ledger};
use ups_manager::Manager;
use ups_net::{AddressBook, MetricsFile, ServerOptions, ServerState, run};
use ups_peers::MAX_WORKERS;
use ups_transport::{Door, Network};
use ups_turn::{Desk, Pass};

/// What a server leaves: whether its threads began, its desk, its passes, and its ledger.
#[derive(Drop)]
pub struct RanServer<L: Ledger> {
    /// Whether its threads began. If one could not be started, or memory ran out before, none did.
    pub begun: bool,
    /// The desk.
    pub desk: Desk<Manager<Global>, Global>,
    /// The passes of the workers, of the deliverers and of the sweeper, in this order.
    pub passes: Vec<Pass<Manager<Global>, Global>>,
    /// The ledger with its requests, if they are kept.
    pub keeper: Option<Keeper<L>>,
}

/// What a server leaves whose desk is closed.
#[derive(Drop)]
pub struct ClosedServer<L: Ledger> {
    /// The manager, with the one history of all passes.
    pub manager: Manager<Global>,
    /// The ledger with its requests, if they are kept.
    pub keeper: Option<Keeper<L>>,
}

impl<L: Ledger> RanServer<L> {
    /// Closes the desk, and returns its manager and the ledger. The passes of the server have each seen a beginning of the
    /// one history of the manager, and entered what is theirs in it. If requests are kept, the ledger has the first
    /// entries of this history, as many as are committed, and a crash would leave at least as many: so both have, of what
    /// any pass has seen, all that is committed.
    ///
    /// # Errors
    ///
    /// The server as it was, if these are not all passes of its desk.
    pub fn close(self) -> Result<ClosedServer<L>, RanServer<L>>
        requires here { All (λ p. p.table ≡ self.desk.table) self.passes.items }
        ensures settings { IfOk result (λ closed. closed.manager.settings ≡ self.desk.opening.settings) }
        ensures legal { IfOk result (λ closed. is_legal closed.manager.settings closed.manager.history) }
        ensures passes { IfOk result (λ closed. EndsFor closed.manager.history self.passes.items) }
        ensures same { IfOk result (λ closed. closed.keeper ≡ self.keeper) }
        ensures kept { IfOk result (λ closed. AreKept L.Ledger self.keeper (seen_last self.passes.items) → AreKept L.Ledger closed.keeper closed.manager.history) }
        ensures safe { IfOk result (λ closed. AreSafe L.Ledger self.keeper (seen_last self.passes.items) → AreSafe L.Ledger closed.keeper closed.manager.history) }
        ensures seen { IfOk result (λ closed. AreKept L.Ledger self.keeper (seen_last self.passes.items) → AreSafe L.Ledger self.keeper (seen_last self.passes.items) → IfSome closed.keeper (λ keeper. All (λ p. KeepsSeen L.Ledger keeper p.seen) self.passes.items)) }
        ensures refused { IfErr result (λ server. (server.begun ≡ self.begun) × (server.desk ≡ self.desk) × (server.passes.items ≡ self.passes.items) × (server.keeper ≡ self.keeper)) }
        ensures missing { IfErr result (λ server. length self.passes.items ≢ self.desk.seats) }
    {
        let RanServer {
            begun,
            desk,
            passes,
            keeper,
        } = self;
        match desk.close(passes) {
            Ok(manager) => Ok(ClosedServer { manager, keeper }),
            Err((desk, passes, _)) => Err(RanServer {
                begun,
                desk,
                passes,
                keeper,
            }),
        }
    }
}

/// A manager with the requests of its store, and the ledger that continues the store, if there is one.
#[derive(Drop)]
struct Begun<L: Ledger> {
    manager: Manager<Global>,
    keeper: Option<Keeper<L>>,
}

/// Listens where the command line says. Prints the port if port 0 was requested, so that a client can be told.
///
/// Errors: those of the network, and of the output.
fn listen<R: Network + Print + Log>(rt: &R, asked: &ServeArguments<'_>) -> io::Result<Door> {
    let listener = rt.listen(asked.bind, asked.port)?;
    let door = Door::new(listener);
    let address = door.address()?;
    if asked.port == 0 {
        println!(rt; "{}", address.port())?;
    }
    let title = str::from_utf8(asked.ae.as_bytes()).unwrap_or("");
    info!(rt; target: "upsd", "{title} listens on {address} with {} workers", asked.limits.workers);
    Ok(door)
}

/// Returns the options for the threads of a server: those of the command line, with the number of associations of each
/// worker and the number of rounds of the sweeper and each deliverer.
fn options_of(
    alloc: Global,
    asked: ServeArguments<'_>,
    metrics: Option<MetricsFile>,
    associations: u64,
    rounds: u64,
) -> ServerOptions
    ensures ae { result.config.ae ≡ asked.entry.ae }
    ensures offset { result.config.offset ≡ asked.entry.offset }
    ensures limits { result.limits ≡ asked.entry.limits }
    ensures watchers { result.watchers ≡ asked.entry.watchers }
    ensures from { result.from ≡ asked.entry.from }
    ensures verbose { result.verbose ≡ asked.entry.verbose }
    ensures audit { result.audit ≡ asked.entry.audit }
    ensures metrics { result.metrics ≡ metrics }
    ensures associations { result.associations ≡ associations }
    ensures rounds { result.rounds ≡ rounds }
{
    let ServeArguments {
        ae,
        offset,
        limits,
        watchers,
        from,
        verbose,
        audit,
        ..
    } = asked;
    ServerOptions {
        alloc,
        config: Config { ae, offset },
        limits,
        associations,
        rounds,
        verbose,
        audit,
        watchers,
        from,
        metrics,
    }
}

/// Returns the file for the numbers of a server, if the command line names one.
///
/// Errors: lack of memory.
fn metrics_of(alloc: Global, file: Option<&str>) -> Result<Option<MetricsFile>, AllocError>
    ensures { IfOk result (λ metrics. option_map (λ m. string_bytes m.path) metrics ≡ option_map (λ w. w.now) file.entry) }
{
    match file {
        Some(file) => Ok(Some(MetricsFile {
            path: file.to_string(alloc)?,
            version: VERSION.to_string(alloc)?,
        })),
        None => Ok(None),
    }
}

/// The maximum number of deliverers of event reports.
const MAX_DELIVERERS: usize = 8;

/// Returns the number of deliverers of event reports besides `workers` workers: one for each watcher, at most eight; no
/// more than the desk has seats for, and at least one.
fn deliverers_of(workers: u32, watchers: usize) -> u32
    requires most { workers ≤ workers_limit }
    ensures number { result ≡ deliverers_of workers watchers }
    ensures some { 1 ≤ result }
    ensures few { workers + result ≤ workers_limit + 1 }
{
    let wanted = watchers.min(MAX_DELIVERERS) as u32;
    let seats = MAX_WORKERS + 1 - workers;
    wanted.min(seats).max(1)
}

/// Returns a manager without requests, with the settings of the command line. Its history has no end.
///
/// Errors: lack of memory.
pub(crate) fn new_manager(
    alloc: Global,
    asked: &ServeArguments<'_>,
) -> Result<Manager<Global>, AllocError>
    requires few { length asked.now.peers.items ≤ peer_limit }
    requires allowed { refusal asked.now.peers.items asked.now.offset history_limit ≡ None }
    ensures settings { IfOk result (λ manager. manager.settings ≡ settings_asked asked.now) }
    ensures empty { IfOk result (λ manager. manager.history ≡ []) }
{
    match Manager::lasting(alloc, &asked.peers, asked.keep, asked.offset) {
        Ok(manager) => Ok(manager),
        Err(_) => Err(AllocError),
    }
}

/// Returns the manager for the command line, with the requests of its store, or None after printing why that was not
/// opened.
///
/// Errors: lack of memory.
fn begin<'a, L: Ledger, O: StoreOpener<'a, L>>(
    alloc: Global,
    opener: &O,
    asked: &ServeArguments<'a>,
) -> Result<Option<Begun<L>>, AllocError>
    requires few { length asked.now.peers.items ≤ peer_limit }
    requires allowed { refusal asked.now.peers.items asked.now.offset history_limit ≡ None }
    ensures settings { IfOk result (λ begun. IfSome begun (λ b. b.manager.settings ≡ settings_asked asked.now)) }
    ensures keeps { IfOk result (λ begun. IfSome begun (λ b. is_some b.keeper ≡ is_some asked.now.store)) }
    ensures kept { IfOk result (λ begun. IfSome begun (λ b. HasBegun L.Ledger b.keeper b.manager.history)) }
    ensures begins { IfOk result (λ begun. IfSome begun (λ b. BeginsOn (λ file choices settings history. AreSound L.Ledger b.keeper → O.begins opener.now file choices settings history) asked.now b.manager.settings b.manager.history)) }
{
    let mut manager = new_manager(alloc, asked)?;
    let Some(file) = asked.store else {
        return Ok(Some(Begun {
            manager,
            keeper: None,
        }));
    };
    match opener.open(file, asked.choices, &mut manager) {
        Ok((ledger, committed)) => {
            let keeper = Keeper { ledger, committed };
            Ok(Some(Begun {
                manager,
                keeper: Some(keeper),
            }))
        }
        Err(Unopened::Memory) => Err(AllocError),
        Err(Unopened::Told) => Ok(None),
    }
}

/// Returns what the answers of a server wait for: nothing, if nothing is kept.
fn commits_of<K: Keeping, L: Ledger>(keeper: &Option<Keeper<L>>) -> Commits<K>
    requires backs { Backs L.Ledger K.had }
    requires none { is_some keeper.now ≡ false → (n : ℕ) → K.had n }
{
    match keeper {
        Some(keeper) => Commits::new(keeper),
        None => Commits::of_none(),
    }
}

/// Tells the counts of a server how many steps its manager begins with, unless memory runs out for that.
fn note_steps<K: Keeping>(state: &ServerState<K>, manager: &Manager<Global>) {
    if let Ok(steps) = manager.held() {
        state.begin_with(steps.len() as u64);
    }
}

/// Runs a server as `serve_on` does. While a connection sends something, what `K` says holds of as many entries as its
/// pass has seen: anything that follows from what a ledger has had, or if none is kept, anything.
///
/// Errors: lack of memory before the threads are started.
fn serve_kept<K: Keeping + Send, L: Ledger, R, B: AddressBook>(
    rt: &R,
    door: Door,
    asked: ServeArguments<'_>,
    begun: Begun<L>,
    book: B,
    associations: u64,
    rounds: u64,
) -> Result<RanServer<L>, AllocError>
where
    R: Threads + Wait + Clock + Log + Sync + AllocGlobal + Network,
    requires backs { Backs L.Ledger K.had }
    requires none { is_some begun.keeper ≡ false → (n : ℕ) → K.had n }
    requires some { 1 ≤ asked.limits.workers }
    requires most { asked.limits.workers ≤ workers_limit }
    requires keeps { is_some begun.keeper ≡ is_some asked.store }
    ensures opening { IfOk result (λ server. server.desk.opening ≡ shared_state begun.manager) }
    ensures ran { IfOk result (λ server. RanAsAsked asked.entry associations rounds server.begun (passes_from server.desk.table server.desk.opening 1 (seats_of asked.entry.limits.workers (length asked.entry.watchers.items))) server.passes.items) }
    ensures here { IfOk result (λ server. All (λ p. p.table ≡ server.desk.table) server.passes.items) }
    ensures goes_on { IfOk result (λ server. KeepersGoOn L.Ledger begun.keeper begun.manager.history server.keeper (seen_last server.passes.items)) }
{
    let alloc = rt.alloc();
    let Begun { manager, keeper } = begun;
    let watchers = asked.watchers.len();
    let deliverers = deliverers_of(asked.limits.workers, watchers);
    let commits: Commits<K> = commits_of(&keeper);
    let Ok(state) = ServerState::new(alloc, door, &asked.watchers, deliverers, commits) else {
        return Err(AllocError);
    };
    note_steps(&state, &manager);
    let seats = asked.limits.workers + deliverers + 1;
    let Ok((desk, passes)) = Desk::open(alloc, manager, seats) else {
        return Err(AllocError);
    };
    let Ok(metrics) = metrics_of(alloc, asked.metrics) else {
        return Err(AllocError);
    };
    let options = options_of(alloc, asked, metrics, associations, rounds);
    let (begun, passes, keeper) = run(rt, &state, &desk, passes, &options, keeper, book);
    Ok(RanServer {
        begun,
        desk,
        passes,
        keeper,
    })
}

/// Runs a server at a door until each worker has served `associations` associations, and the sweeper and each deliverer
/// have made `rounds` rounds. Returns what it leaves: its manager is the one that was given, and either each thread has
/// done its job as requested, or none has begun.
///
/// Errors: lack of memory before the threads are started.
fn serve_on<L: Ledger, R, B: AddressBook>(
    rt: &R,
    door: Door,
    asked: ServeArguments<'_>,
    begun: Begun<L>,
    book: B,
    associations: u64,
    rounds: u64,
) -> Result<RanServer<L>, AllocError>
where
    R: Threads + Wait + Clock + Log + Sync + AllocGlobal + Network,
    requires some { 1 ≤ asked.limits.workers }
    requires most { asked.limits.workers ≤ workers_limit }
    requires keeps { is_some begun.keeper ≡ is_some asked.store }
    ensures opening { IfOk result (λ server. server.desk.opening ≡ shared_state begun.manager) }
    ensures ran { IfOk result (λ server. RanAsAsked asked.entry associations rounds server.begun (passes_from server.desk.table server.desk.opening 1 (seats_of asked.entry.limits.workers (length asked.entry.watchers.items))) server.passes.items) }
    ensures here { IfOk result (λ server. All (λ p. p.table ≡ server.desk.table) server.passes.items) }
    ensures goes_on { IfOk result (λ server. KeepersGoOn L.Ledger begun.keeper begun.manager.history server.keeper (seen_last server.passes.items)) }
{
    serve_kept::<Brand, L, R, B>(rt, door, asked, begun, book, associations, rounds)
}

/// Answers associations over TCP and delivers event reports until each worker has served `associations` associations,
/// and the sweeper and each deliverer have made `rounds` rounds. The address book may name other addresses of the
/// watchers meanwhile. Returns what the server leaves, whose passes are at its desk. If a store is requested, the manager
/// begins with the requests of the store, and the ledger has the first entries of the history that the sweeper's pass has
/// seen, as many as are committed; a crash would leave at least as many. Returns None after printing why the store was
/// not opened, or why it can't listen.
///
/// # Errors
///
/// Lack of memory before the threads are started.
pub fn answer_network<'a, L: Ledger, O: StoreOpener<'a, L>, R, B: AddressBook>(
    rt: &R,
    opener: &O,
    book: B,
    asked: ServeArguments<'a>,
    associations: u64,
    rounds: u64,
) -> Result<Option<RanServer<L>>, AllocError>
where
    R: Threads + Wait + Clock + Log + Sync + AllocGlobal + Print + Eprint + Network,
    requires some { 1 ≤ asked.limits.workers }
    requires most { asked.limits.workers ≤ workers_limit }
    requires few { length asked.peers.items ≤ peer_limit }
    requires allowed { refusal asked.peers.items asked.offset history_limit ≡ None }
    ensures settings { IfOk result (λ left. IfSome left (λ server. server.desk.opening.settings ≡ settings_asked asked.entry)) }
    ensures begins { IfOk result (λ left. IfSome left (λ server. BeginsOn (λ file choices settings history. AreSound L.Ledger server.keeper → O.begins opener.now file choices settings history) asked.entry server.desk.opening.settings server.desk.opening.history)) }
    ensures ran { IfOk result (λ left. IfSome left (λ server. RanAsAsked asked.entry associations rounds server.begun (passes_from server.desk.table server.desk.opening 1 (seats_of asked.entry.limits.workers (length asked.entry.watchers.items))) server.passes.items)) }
    ensures here { IfOk result (λ left. IfSome left (λ server. All (λ p. p.table ≡ server.desk.table) server.passes.items)) }
    ensures kept { IfOk result (λ left. IfSome left (λ server. AreKept L.Ledger server.keeper (seen_last server.passes.items))) }
    ensures safe { IfOk result (λ left. IfSome left (λ server. AreSafe L.Ledger server.keeper (seen_last server.passes.items))) }
{
    tell_settings(rt, &asked);
    // Before a run begins in the store, which may give it a new format.
    if !can_listen(rt, asked.bind, asked.port) {
        return Ok(None);
    }
    let Some(begun) = begin(rt.alloc(), opener, &asked)? else {
        return Ok(None);
    };
    match listen(rt, &asked) {
        Ok(door) => Ok(Some(serve_on(rt, door, asked, begun, book, associations, rounds)?)),
        Err(fault) => {
            tell_unheard(rt, asked.bind, asked.port, fault);
            Ok(None)
        }
    }
}

/// Parses the words of `serve`, and runs the server as [`answer_network`] does. Returns None also for words that ask for
/// a look alone, which [`check_words`](crate::check_words) takes.
///
/// # Errors
///
/// Those of the words, as in [`ArgumentFault`]; Memory also if memory ran out before the threads were started.
pub fn serve_words<'a, L: Ledger, O: StoreOpener<'a, L>, R, B: AddressBook>(
    rt: &R,
    opener: &O,
    book: B,
    matches: &ArgMatches<'a>,
    associations: u64,
    rounds: u64,
) -> Result<Option<RanServer<L>>, ArgumentFault<'a>>
where
    R: Threads + Wait + Clock + Log + Sync + AllocGlobal + Print + Eprint + Network,
    ensures ran { IfOk result (λ left. IfSome left (λ server. RanAsWords (found_of matches.now) associations rounds server.begun (λ file choices settings history. AreSound L.Ledger server.keeper → O.begins opener.now file choices settings history) server.desk.table server.desk.opening server.passes.items)) }
    ensures here { IfOk result (λ left. IfSome left (λ server. All (λ p. p.table ≡ server.desk.table) server.passes.items)) }
    ensures kept { IfOk result (λ left. IfSome left (λ server. AreKept L.Ledger server.keeper (seen_last server.passes.items))) }
    ensures safe { IfOk result (λ left. IfSome left (λ server. AreSafe L.Ledger server.keeper (seen_last server.passes.items))) }
{
    let asked = serve_arguments(rt.alloc(), matches)?;
    if asked.check {
        return Ok(None);
    }
    Ok(answer_network(rt, opener, book, asked, associations, rounds)?)
}
