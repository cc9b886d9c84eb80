//! Stores: made, opened for a server, and compacted.

ghost use Rattle.std.specs.Prelude.{◌≡◌, ◌≤◌, [], length, IfOk, IfSome};
ghost use Rattle.ups_ledger.specs.Keeping.{IsKept, IsSafe};
ghost use Rattle.ups_life.specs.Limits.{peer_limit};
ghost use Rattle.ups_start.specs.Opened.{ShowsFiles, Resumes};
ghost use Rattle.upsd.specs.Storing.{compaction_settings};

use crate::beside::{BesideFault, read_beside, write_beside};
use crate::ending::{ExitStatus, refuse};
use crate::following::PeersFile;
use crate::keeping::{ServerLedger, ServerNaming};
use crate::naming::NamedWords;
use crate::place::{AnyContents, ServerPlace};
use clap::ArgMatches;
use log::{Log, info, warn};
use std::alloc::{AllocError, Global};
use std::time::Clock;
use ups_args::{
    ArgumentFault, CompactArguments, InitArguments, ScriptArguments, VERSION, compact_arguments,
    init_arguments, serve_arguments,
};
use ups_lasting::{DraftLedger, LastingLedger};
use ups_ledger::{Keeper, Ledger};
use ups_life::{MAX_PEERS, Peer};
use ups_log::moment_of;
use ups_manager::Manager;
use ups_server::{StoreOpener, Unopened};
use ups_settings::ManagerFault;
use ups_start::{
    CompactFault, LedgerNaming, OpenFault, Run, Start, StartFault, StoreFault, StoreLedger,
    StorePlace, begin, compact, create, last_terms, look, look_at_terms,
};
use ups_terms::{StartChoices, Terms, terms_text};

/// Opens the stores that the command line names. No other part of the program knows how these are kept.
#[derive(Drop)]
pub(crate) struct Stores<'a, R: Clock + Log> {
    pub(crate) rt: &'a HostRuntime,
    telling: &'a R,
    run: Run<'a>,
    /// The port that the command line names.
    port: u16,
}

impl<'a, R: Clock + Log> Stores<'a, R> {
    /// Returns the file of peers that is named by the words of the command line, and logs what it says where the reading of
    /// stores is logged.
    pub(crate) fn peers_file(&self, named: &'a NamedWords) -> PeersFile<'a, R> {
        PeersFile::new(self.rt, self.telling, named)
    }

    /// Returns the stores of a run of the program that begins now, with these words on its command line, and what they ask
    /// for, and a log for the reading of stores.
    pub(crate) fn new(
        rt: &'a HostRuntime,
        telling: &'a R,
        words: &'a str,
        asked: &'a AskedServer,
    ) -> Stores<'a, R> {
        Stores {
            rt,
            telling,
            run: Run {
                moment: moment_of(telling),
                version: VERSION,
                settings: words,
                terms: asked.terms.as_str(),
            },
            port: asked.port,
        }
    }

    /// Writes the port and the terms of the server that has just begun beside its store, for checks; logs if that fails.
    fn tell_checks(&self, file: &str) {
        if let Err(error) = write_beside(self.rt, file, self.port, self.run.terms) {
            warn!(self.telling; target: "upsd", "store: no check can see the terms of this server: {file}-terms: {error}");
        }
    }
}

/// What is told of a server beside its requests.
#[derive(Drop)]
pub(crate) struct AskedServer {
    /// The terms of its service, as text.
    terms: String,
    /// The port on which it listens; 0 means any free port.
    port: u16,
}

impl AskedServer {
    /// Returns what is told where no server is asked for.
    pub(crate) fn none(alloc: Global) -> AskedServer {
        AskedServer {
            terms: String::new(alloc),
            port: 0,
        }
    }
}

/// Returns what is told of the server that the words of `serve` ask for; nothing if they are other or invalid words.
///
/// Errors: lack of memory.
pub(crate) fn server_asked(
    alloc: Global,
    matches: &ArgMatches<'_>,
) -> Result<AskedServer, AllocError> {
    let asked = match matches.subcommand() {
        Some(("serve", matches)) => serve_arguments(alloc, matches),
        _ => return Ok(AskedServer::none(alloc)),
    };
    match asked {
        Ok(asked) => Ok(AskedServer {
            terms: terms_text(alloc, asked.keep, asked.offset, &asked.peers)?,
            port: asked.port,
        }),
        Err(ArgumentFault::Memory) => Err(AllocError),
        Err(_) => Ok(AskedServer::none(alloc)),
    }
}

/// Logs the number of the run, and the number of requests with which a server begins.
fn tell_opened<R: Log>(telling: &R, run: u64, requests: u64) {
    info!(telling; target: "upsd", "store: run {run} begins with {requests} requests");
}

/// Returns whether a start ended because memory ran out.
fn is_memory(fault: &StartFault) -> bool {
    match fault {
        StartFault::Memory => true,
        StartFault::Open(fault) => matches!(fault, OpenFault::Memory),
        StartFault::Read(fault) | StartFault::Write(fault) => matches!(fault, StoreFault::Memory),
        StartFault::Compact(fault) => matches!(fault, CompactFault::Memory),
        StartFault::Restore(_) | StartFault::Terms(_) | StartFault::UnreadableTerms => false,
    }
}

/// Returns how a start that ended so can go on all the same, or nothing.
fn way_on(fault: &StartFault) -> &str {
    match fault {
        StartFault::Terms(_) | StartFault::UnreadableTerms => {
            " (--store-other-settings takes the new ones)"
        }
        _ => "",
    }
}

/// Prints why a store is not used, unless memory ran out.
fn tell_unopened<R: Eprint>(rt: &R, file: &str, fault: &StartFault) -> Unopened {
    if is_memory(fault) {
        return Unopened::Memory;
    }
    let _ = eprintln!(rt; "upsd: the store {file}: {fault}{}", way_on(fault));
    Unopened::Told
}

/// Returns how the program ends after a fault of a store, and prints it, unless memory ran out.
///
/// Errors: lack of memory, if that is the fault.
pub(crate) fn stopped<R: Eprint>(
    rt: &R,
    file: &str,
    fault: &StartFault,
) -> Result<ExitStatus, AllocError> {
    match tell_unopened(rt, file, fault) {
        Unopened::Memory => Err(AllocError),
        Unopened::Told => Ok(ExitStatus::Stopped),
    }
}

/// Opens the store at a place, enters its requests into a manager, and logs with how many a server begins; or prints
/// why the store was not opened.
///
/// Errors: Memory; Told.
fn open_at<
    'a,
    P: StorePlace,
    D: DraftLedger,
    N: LedgerNaming<StoreLedger<'a, P>, D>,
    R: Clock + Log,
>(
    stores: &Stores<'a, R>,
    naming: &N,
    place: P,
    file: &str,
    choices: StartChoices,
    manager: &mut Manager<Global>,
) -> Result<Keeper<LastingLedger<D>>, Unopened>
    requires new { manager.old.history ≡ [] }
    ensures settings { manager.new.settings ≡ manager.old.settings }
    ensures kept { IfOk result (λ keeper. IsKept ⟦<LastingLedger<D> as Ledger>⟧ keeper manager.new.history) }
    ensures safe { IfOk result (λ keeper. IsSafe ⟦<LastingLedger<D> as Ledger>⟧ keeper manager.new.history) }
    ensures resumes { IfOk result (λ keeper. ⟦<LastingLedger<D> as Ledger>⟧.is_sound keeper.ledger → Resumes (P.finds place) choices manager.old.settings manager.new.history) }
    ensures all { IfOk result (λ keeper. keeper.committed ≡ length manager.new.history) }
{
    match begin(
        stores.rt.alloc(),
        stores.telling,
        naming,
        place,
        choices,
        stores.run,
        manager,
    ) {
        Ok(keeper) => {
            tell_opened(stores.telling, keeper.ledger.run(), keeper.count());
            Ok(keeper)
        }
        Err(fault) => Err(tell_unopened(stores.rt, file, &fault)),
    }
}

/// Compares with the terms that the server which has a store told beside it, as a start does with those of the last run.
/// Returns the port of that server; or prints why a start would not use the store, or that its terms can't be read.
///
/// Errors: Memory; Told.
fn look_beside<R: Clock + Log>(
    stores: &Stores<'_, R>,
    file: &str,
    choices: StartChoices,
    manager: &Manager<Global>,
) -> Result<Option<u16>, Unopened> {
    let (rt, telling) = (stores.rt, stores.telling);
    let beside = match read_beside(rt, file) {
        Ok(beside) => beside,
        Err(BesideFault::Memory) => return Err(Unopened::Memory),
        Err(fault) => {
            let _ = eprintln!(rt;
                "upsd: the store {file}: another process uses it, and its terms can't be read from {file}-terms: {fault}"
            );
            return Err(Unopened::Told);
        }
    };
    match look_at_terms(
        rt.alloc(),
        telling,
        beside.terms.as_bytes(),
        manager,
        choices.may_change_terms,
    ) {
        Ok(()) => {
            info!(telling; target: "upsd", "store: it is in use, and can be used after that");
            Ok(Some(beside.port))
        }
        Err(fault) => Err(tell_unopened(rt, file, &fault)),
    }
}

/// Looks at the store at a place as a start does first, and logs that it can be used; or prints why a start would not use
/// it. Of a store that another process uses, the port of that server is returned.
///
/// Errors: Memory; Told.
fn look_at<P: StorePlace, R: Clock + Log>(
    stores: &Stores<'_, R>,
    place: &P,
    file: &str,
    choices: StartChoices,
    manager: &Manager<Global>,
) -> Result<Option<u16>, Unopened> {
    let (rt, telling) = (stores.rt, stores.telling);
    match look(
        rt.alloc(),
        telling,
        place,
        manager,
        choices.may_change_terms,
    ) {
        Ok(()) => {
            info!(telling; target: "upsd", "store: it can be used");
            Ok(None)
        }
        Err(StartFault::Open(OpenFault::Busy)) => look_beside(stores, file, choices, manager),
        Err(fault) => Err(tell_unopened(rt, file, &fault)),
    }
}

impl<'a, R: Clock + Log> StoreOpener<'a, ServerLedger<'a>> for Stores<'a, R> {
    ghost begins = { λ _ _ choices settings history. Resumes (ShowsFiles ⟦<AnyContents as Start>⟧) choices settings history };

    fn open(
        &self,
        file: &'a str,
        choices: StartChoices,
        manager: &mut Manager<Global>,
    ) -> Result<(ServerLedger<'a>, usize), Unopened> {
        let place = ServerPlace::new(self.rt, file);
        let keeper = open_at(self, &ServerNaming, place, file, choices, manager)?;
        self.tell_checks(file);
        let Keeper { ledger, committed } = keeper;
        Ok((ServerLedger { ledger }, committed))
    }

    fn look(
        &self,
        file: &'a str,
        choices: StartChoices,
        manager: &Manager<Global>,
    ) -> Result<Option<u16>, Unopened> {
        let place = ServerPlace::new(self.rt, file);
        look_at(self, &place, file, choices, manager)
    }
}

/// Returns a manager without requests, with these settings, whose history has no end.
///
/// Errors: those of the settings; Memory.
fn new_manager(
    alloc: Global,
    keep: u32,
    offset: i16,
    peers: &[Peer],
) -> Result<Manager<Global>, ManagerFault>
    requires few { length peers.now ≤ peer_limit }
    ensures settings { IfOk result (λ manager. manager.settings ≡ compaction_settings keep offset peers.now) }
    ensures empty { IfOk result (λ manager. manager.history ≡ []) }
{
    Manager::lasting(alloc, peers, keep, offset)
}

/// A compaction as the command line asks for it.
#[derive(Clone, Copy)]
struct Compaction<'a> {
    /// The file of the store.
    file: &'a str,
    /// What it may do with the requests.
    choices: StartChoices,
}

/// Compacts the store at a place with two managers without requests, prints the result, and returns how the program
/// ends.
///
/// Errors: lack of memory, if `compact` returns Memory.
fn compacted_at<P: StorePlace, R: Clock + Log>(
    stores: &Stores<'_, R>,
    asked: Compaction<'_>,
    terms: &str,
    place: &P,
    manager: &mut Manager<Global>,
    fresh: &mut Manager<Global>,
) -> Result<ExitStatus, AllocError>
    requires settings { fresh.old.settings ≡ manager.old.settings }
    requires new { fresh.old.history ≡ [] }
{
    let Compaction { file, choices } = asked;
    let Run {
        moment,
        version,
        settings,
        terms: _,
    } = stores.run;
    let run = Run {
        moment,
        version,
        settings,
        terms,
    };
    let alloc = stores.rt.alloc();
    match compact(alloc, stores.telling, place, choices, &run, manager, fresh) {
        Ok(compacted) => {
            let (after, before) = (compacted.after, compacted.before);
            let _ = println!(stores.rt; "{file}: {after} requests, {before} before");
            Ok(ExitStatus::Done)
        }
        Err(fault) => stopped(stores.rt, file, &fault),
    }
}

/// Returns how a compaction ends for which no manager was made.
///
/// Errors: lack of memory, if that is the fault.
fn unmade<R: Eprint>(rt: &R, file: &str, fault: ManagerFault) -> Result<ExitStatus, AllocError> {
    match fault {
        ManagerFault::Memory => Err(AllocError),
        _ => stopped(rt, file, &StartFault::UnreadableTerms),
    }
}

/// Makes the two managers of a compaction with these settings, and compacts the store.
///
/// Errors: lack of memory before the store is opened; those of `compacted_at`.
fn compacted<R: Clock + Log>(
    stores: &Stores<'_, R>,
    asked: Compaction<'_>,
    keep: u32,
    offset: i16,
    peers: &[Peer],
) -> Result<ExitStatus, AllocError>
    requires few { length peers.now ≤ peer_limit }
{
    let alloc = stores.rt.alloc();
    let terms = terms_text(alloc, keep, offset, peers)?;
    let mut manager = match new_manager(alloc, keep, offset, peers) {
        Ok(manager) => manager,
        Err(fault) => return unmade(stores.rt, asked.file, fault),
    };
    let mut fresh = match new_manager(alloc, keep, offset, peers) {
        Ok(manager) => manager,
        Err(fault) => return unmade(stores.rt, asked.file, fault),
    };
    let place = ServerPlace::new(stores.rt, asked.file);
    compacted_at(
        stores,
        asked,
        terms.as_str(),
        &place,
        &mut manager,
        &mut fresh,
    )
}

/// Compacts a store under these terms of its last run.
///
/// Errors: those of `compacted`.
fn compacted_under<R: Clock + Log>(
    stores: &Stores<'_, R>,
    asked: Compaction<'_>,
    terms: &Terms<Global>,
) -> Result<ExitStatus, AllocError> {
    if terms.peers.len() > MAX_PEERS {
        return stopped(stores.rt, asked.file, &StartFault::UnreadableTerms);
    }
    compacted(stores, asked, terms.keep, terms.offset, &terms.peers)
}

/// Compacts a store under the terms of its last run. A store whose last run noted none has to be given its settings.
///
/// Errors: those of `compacted`.
fn compacted_as_before<R: Clock + Log>(
    stores: &Stores<'_, R>,
    asked: Compaction<'_>,
) -> Result<ExitStatus, AllocError> {
    let place = ServerPlace::new(stores.rt, asked.file);
    match last_terms(stores.rt.alloc(), &place) {
        Ok(Some(terms)) => compacted_under(stores, asked, &terms),
        Ok(None) => {
            let _ = eprintln!(stores.rt;
                "upsd: the store {}: its last run noted no settings: give --keep, --offset and the peers of the server",
                asked.file
            );
            Ok(ExitStatus::Stopped)
        }
        Err(fault) => stopped(stores.rt, asked.file, &fault),
    }
}

/// Compacts the store that the command line names, with the settings that it gives, or else those of the last run.
///
/// Errors: those of `compacted`.
fn compacted_as_asked<R: Clock + Log>(
    stores: &Stores<'_, R>,
    arguments: &CompactArguments<'_>,
) -> Result<ExitStatus, AllocError>
    requires few { IfSome arguments.now.settings (λ s. length s.peers.items ≤ peer_limit) }
{
    let asked = Compaction {
        file: arguments.store,
        choices: StartChoices {
            may_leave_out: arguments.leave_out,
            may_compact: true,
            may_change_terms: arguments.other_settings,
        },
    };
    match &arguments.settings {
        Some(
            ScriptArguments {
                peers,
                keep,
                offset,
            },
        ) => compacted(stores, asked, *keep, *offset, peers),
        None => compacted_as_before(stores, asked),
    }
}

/// Runs `init`: makes the store that the command line names, and returns how the program ends.
///
/// Errors: lack of memory.
pub(crate) fn perform_init<R: Clock + Log>(
    stores: &Stores<'_, R>,
    matches: &ArgMatches<'_>,
) -> Result<ExitStatus, AllocError> {
    let InitArguments { store } = init_arguments(matches);
    match create(stores.rt, store, AnyContents) {
        Ok(_) => Ok(ExitStatus::Done),
        Err(fault) => stopped(stores.rt, store, &StartFault::Open(fault)),
    }
}

/// Runs `compact`, and returns how the program ends.
///
/// Errors: lack of memory.
pub(crate) fn perform_compact<R: Clock + Log>(
    stores: &Stores<'_, R>,
    matches: &ArgMatches<'_>,
) -> Result<ExitStatus, AllocError> {
    match compact_arguments(stores.rt.alloc(), matches) {
        Ok(asked) => compacted_as_asked(stores, &asked),
        Err(fault) => refuse(stores.rt, fault),
    }
}
