//! The arguments of `serve`.

ghost use Rattle.std.specs.Prelude.{◌≡◌, ◌≤◌, ℕ, [], Option, codes, true, length, None, option_map, IfErr, IfOk, MatchResult, unwrap_or};
ghost use Rattle.clap.specs.Matches.{first_value, found_of};
ghost use Rattle.ups_args.specs.Arguments.{FailToAskServe, FailToLimit, IsFlag, NamePeers, NameWatchers, SaysBind, SaysCompactAt, SaysCompactAtOrNot, SaysDeliveryTimeout, SaysFrom, SaysIdle, SaysKeep, SaysOffset, SaysPort, SaysTimeout, SaysWaiting, SaysWorkers, SaysWorkersOrNot, argument_words, leave_alone};
ghost use Rattle.ups_life.specs.Limits.{history_limit, peer_limit};
ghost use Rattle.ups_peers.specs.Limits.{turns_limit, workers_limit};
ghost use Rattle.ups_settings.specs.Refusal.{refusal};
ghost use Rattle.ups_pdu.specs.Title.{SpellsAe};
ghost use Rattle.std.specs.declared.net.ip_addr.IpAddr.{IpAddr};

use crate::fault::ArgumentFault;
use crate::options::{flag, worded};
use crate::peers::{watchers_of, with_peers};
use crate::script::script_arguments;
use crate::store::{metrics_asked, naming_file, with_store};
use crate::times::{seconds_asked, with_times};
use crate::title::{ae_of, ae_word};
use clap::{ArgMatches, Command};
use std::alloc::{AllocError, Global};
use std::net::IpAddr;
use ups_life::Peer;
use ups_pdu::Ae;
use ups_peers::{
    COMPACT_AT, DELIVERY_TIMEOUT, IDLE, MAX_COMPACT_AT, MAX_WORKERS, ServerLimits, TIMEOUT, TURNS,
    WAITING, WORKERS, Watcher,
};
use ups_terms::StartChoices;

/// The default address to listen on: the loopback address.
const LOOPBACK: &str = "127.0.0.1";

/// Adds the options for the address that a server listens on, and the one from which its reports leave.
fn with_door<'a>(alloc: Global, command: Command<'a>) -> Result<Command<'a>, AllocError> {
    let port = worded(
        alloc,
        "port",
        "P",
        "the port to listen on; 0 takes any that is free, and prints it",
    );
    let bind = "the address to listen on [default: 127.0.0.1]";
    let from =
        "the IP address of this machine from which reports leave, to watchers with an address of its version [default: none, the system chooses]";
    command
        .arg(port.required(true))?
        .arg(worded(alloc, "bind", "ADDRESS", bind))?
        .arg(worded(alloc, "from", "ADDRESS", from))
}

/// Adds the options for the associations that a server serves.
fn with_workers<'a>(alloc: Global, command: Command<'a>) -> Result<Command<'a>, AllocError> {
    let associations = "how many associations are served at the same time [default: 16]";
    let idle = "how long an association may be silent, 0 for any time [default: 60]";
    command
        .arg(worded(alloc, "associations", "N", associations))?
        .arg(worded(alloc, "idle", "SECONDS", idle))
}

/// Adds the options for how long a peer or a watcher may take.
fn with_limits<'a>(alloc: Global, command: Command<'a>) -> Result<Command<'a>, AllocError> {
    let timeout =
        "how long a peer may take to send a message, or to take an answer, 0 for any time [default: 60]";
    let delivery =
        "how long a watcher may take to be connected to, and for each answer, 0 for an hour [default: 5]";
    let waiting =
        "how many reports may wait for one watcher before the oldest are given up, 0 for any number [default: 500000]";
    command
        .arg(worded(alloc, "timeout", "SECONDS", timeout))?
        .arg(worded(alloc, "delivery-timeout", "SECONDS", delivery))?
        .arg(worded(alloc, "waiting", "REPORTS", waiting))
}

/// Adds the options of a server for its address, its associations and deliveries, and its log.
fn with_network<'a>(alloc: Global, command: Command<'a>) -> Result<Command<'a>, AllocError> {
    let check =
        "look at the command line, the hosts of the watchers and the store, and end without a start";
    let verbose = "tell of each association whether it is accepted, and of each request";
    let audit = "log each change, query and N-GET that is accepted, with who asked for it";
    let metrics = "the file into which numbers for Prometheus are written [default: none]";
    let command = with_workers(alloc, with_door(alloc, command)?)?;
    with_limits(alloc, command)?
        .arg(flag(alloc, "check", check))?
        .arg(flag(alloc, "verbose", verbose))?
        .arg(flag(alloc, "audit", audit))?
        .arg(naming_file(worded(alloc, "metrics", "FILE", metrics)))
}

/// Returns the command line of `upsd serve`.
pub(crate) fn serve_command<'a>(alloc: Global) -> Result<Command<'a>, AllocError> {
    let command = Command::new(alloc, "serve")
        .about("answers associations over TCP, and delivers event reports")
        .arg(ae_word(alloc))?;
    let command = with_times(alloc, with_network(alloc, command)?)?;
    with_peers(alloc, with_store(alloc, command)?)
}

/// Parses the number of a port; 0 means any free port.
///
/// Errors: Port if it is not a number from 0 to 65535.
fn port_of(word: &str) -> Result<u16, ArgumentFault<'_>>
    ensures said { MatchResult result (SaysPort word.now) (λ _. (port : ℕ) → SaysPort word.now port → ⊥) }
    ensures fault { IfErr result (λ fault. fault ≡ ArgumentFault.Port) }
{
    match word.parse::<u16>() {
        Ok(port) => Ok(port),
        Err(_) => Err(ArgumentFault::Port),
    }
}

/// Parses the number of associations that are served at the same time.
///
/// Errors: Associations if it is not a number from 1 to 1,022.
fn workers_of(word: &str) -> Result<u32, ArgumentFault<'_>>
    ensures said { MatchResult result (SaysWorkers word.now) (λ _. (count : ℕ) → SaysWorkers word.now count → ⊥) }
    ensures fault { IfErr result (λ fault. fault ≡ ArgumentFault.Associations) }
{
    match word.parse::<u32>() {
        Ok(count) if 1 <= count && count <= MAX_WORKERS => Ok(count),
        _ => Err(ArgumentFault::Associations),
    }
}

/// Returns the number of associations that are served at the same time, from the word after `--associations`, or 16
/// without one.
///
/// Errors: those of `workers_of`.
fn workers_asked(word: Option<&str>) -> Result<u32, ArgumentFault<'_>>
    ensures said { MatchResult result (SaysWorkersOrNot (option_map (λ w. w.now) word.entry)) (λ _. (count : ℕ) → SaysWorkersOrNot (option_map (λ w. w.now) word.entry) count → ⊥) }
    ensures fault { IfErr result (λ fault. fault ≡ ArgumentFault.Associations) }
{
    match word {
        Some(word) => workers_of(word),
        None => Ok(WORKERS),
    }
}

/// Returns how many event reports may wait for one watcher, from the word after `--waiting`, or 500,000 without one; 0 means
/// no limit.
///
/// Errors: Waiting if the word is not a number below 2^32.
fn waiting_asked(word: Option<&str>) -> Result<u32, ArgumentFault<'_>>
    ensures said { MatchResult result (SaysWaiting (option_map (λ w. w.now) word.entry)) (λ _. (count : ℕ) → SaysWaiting (option_map (λ w. w.now) word.entry) count → ⊥) }
    ensures fault { IfErr result (λ fault. fault ≡ ArgumentFault.Waiting) }
{
    match word {
        Some(word) => word.parse::<u32>().or(Err(ArgumentFault::Waiting)),
        None => Ok(WAITING),
    }
}

/// Parses the number of records that the store takes before it is compacted.
///
/// Errors: CompactAt if it is not a number from 1 to 1,000,000,000.
fn compact_at_of(word: &str) -> Result<u64, ArgumentFault<'_>>
    ensures said { MatchResult result (SaysCompactAt word.now) (λ _. (count : ℕ) → SaysCompactAt word.now count → ⊥) }
    ensures fault { IfErr result (λ fault. fault ≡ ArgumentFault.CompactAt) }
{
    match word.parse::<u64>() {
        Ok(count) if 1 <= count && count <= MAX_COMPACT_AT => Ok(count),
        _ => Err(ArgumentFault::CompactAt),
    }
}

/// Returns how many records the store takes before it is compacted, from the word after `--compact-at`, or 50,000
/// without one.
///
/// Errors: those of `compact_at_of`.
fn compact_at_asked(word: Option<&str>) -> Result<u64, ArgumentFault<'_>>
    ensures said { MatchResult result (SaysCompactAtOrNot (option_map (λ w. w.now) word.entry)) (λ _. (count : ℕ) → SaysCompactAtOrNot (option_map (λ w. w.now) word.entry) count → ⊥) }
    ensures fault { IfErr result (λ fault. fault ≡ ArgumentFault.CompactAt) }
{
    match word {
        Some(word) => compact_at_of(word),
        None => Ok(COMPACT_AT),
    }
}

/// Returns the address to listen on, from the word after `--bind`, or 127.0.0.1 without one.
fn bind_asked<'a>(word: Option<&'a str>) -> &'a str
    ensures { SaysBind (option_map (λ w. w.now) word.entry) result.now }
{
    match word {
        Some(word) => word,
        None => LOOPBACK,
    }
}

/// Returns the address of this machine from which event reports leave, by the word after `--from`; without one, the system
/// chooses it.
///
/// Errors: Source if the word is no IP address.
fn from_asked(word: Option<&str>) -> Result<Option<IpAddr>, ArgumentFault<'_>>
    ensures said { MatchResult result (SaysFrom (option_map (λ w. w.now) word.entry)) (λ _. (from : Option IpAddr) → SaysFrom (option_map (λ w. w.now) word.entry) from → ⊥) }
    ensures fault { IfErr result (λ fault. fault ≡ ArgumentFault.Source) }
{
    let Some(word) = word else {
        return Ok(None);
    };
    match word.parse::<IpAddr>() {
        Ok(from) => Ok(Some(from)),
        Err(_) => Err(ArgumentFault::Source),
    }
}

/// Returns what a server allows its peers, and how far its store grows.
///
/// An association may be silent between two messages for the seconds of the word after `--idle`, or 60 without one. A
/// peer may take those of the word after `--timeout`, or 60 without one, for each message that it has begun to send, and
/// to take each answer. In both, 0 means no limit. A watcher may take those of the word after `--delivery-timeout`, or 5
/// without one; 0 means an hour for each answer, and ten seconds if it is neither away nor slow. As many event reports may
/// wait for it as the word after `--waiting` says.
///
/// Errors: Associations, Idle, Timeout, DeliveryTimeout, Waiting or CompactAt for the first of these words that is invalid.
fn limits_asked<'a>(matches: &ArgMatches<'a>) -> Result<ServerLimits, ArgumentFault<'a>>
    ensures workers { IfOk result (λ limits. SaysWorkersOrNot (first_value (found_of matches.now) (codes "associations")) limits.workers) }
    ensures turns { IfOk result (λ limits. limits.turns ≡ turns_limit) }
    ensures idle { IfOk result (λ limits. SaysIdle (first_value (found_of matches.now) (codes "idle")) limits.idle) }
    ensures timeout { IfOk result (λ limits. SaysTimeout (first_value (found_of matches.now) (codes "timeout")) limits.timeout) }
    ensures delivery_timeout { IfOk result (λ limits. SaysDeliveryTimeout (first_value (found_of matches.now) (codes "delivery-timeout")) limits.delivery_timeout) }
    ensures waiting { IfOk result (λ limits. SaysWaiting (first_value (found_of matches.now) (codes "waiting")) limits.waiting) }
    ensures compact_at { IfOk result (λ limits. SaysCompactAtOrNot (first_value (found_of matches.now) (codes "compact-at")) limits.compact_at) }
    ensures some { IfOk result (λ limits. 1 ≤ limits.workers) }
    ensures most { IfOk result (λ limits. limits.workers ≤ workers_limit) }
    ensures refused { IfErr result (FailToLimit (found_of matches.now)) }
{
    Ok(ServerLimits {
        workers: workers_asked(matches.get_str("associations"))?,
        turns: TURNS,
        idle: seconds_asked(matches.get_str("idle"), IDLE, ArgumentFault::Idle)?,
        timeout: seconds_asked(matches.get_str("timeout"), TIMEOUT, ArgumentFault::Timeout)?,
        delivery_timeout: seconds_asked(
            matches.get_str("delivery-timeout"),
            DELIVERY_TIMEOUT,
            ArgumentFault::DeliveryTimeout,
        )?,
        waiting: waiting_asked(matches.get_str("waiting"))?,
        compact_at: compact_at_asked(matches.get_str("compact-at"))?,
    })
}

/// The arguments of `serve`.
#[derive(Drop)]
pub struct ServeArguments<'a> {
    /// The title of this application entity.
    pub ae: Ae,
    /// The address to listen on.
    pub bind: &'a str,
    /// The port to listen on; 0 means any free port.
    pub port: u16,
    /// The address of this machine from which event reports leave; None lets the system choose.
    pub from: Option<IpAddr>,
    /// The peers that may watch steps.
    pub peers: Vec<Peer>,
    /// Where each of the peers gets its event reports.
    pub watchers: Vec<Watcher>,
    /// The minimum number of seconds for which a finished step is kept.
    pub keep: u32,
    /// The offset of the local time from UTC in minutes, positive east of it.
    pub offset: i16,
    /// The number of associations that are served at the same time, the number of PDUs of each, how long each is waited
    /// for, and when the store is compacted.
    pub limits: ServerLimits,
    /// The file in which accepted requests are kept, if there is one.
    pub store: Option<&'a str>,
    /// What the start may do with the requests of the store.
    pub choices: StartChoices,
    /// Whether to look alone at what a start would find, and to serve nothing.
    pub check: bool,
    /// Whether to log how each association is answered, and each request.
    pub verbose: bool,
    /// Whether to log each accepted change, query and N-GET, with who asked for it.
    pub audit: bool,
    /// The file into which the numbers of the server are written, if there is one.
    pub metrics: Option<&'a str>,
}

/// Parses the arguments of `serve`.
///
/// # Errors
///
/// Those of the words, as in [`ArgumentFault`].
pub fn serve_arguments<'a>(
    alloc: Global,
    matches: &ArgMatches<'a>,
) -> Result<ServeArguments<'a>, ArgumentFault<'a>>
    ensures title { IfOk result (λ asked. SpellsAe (unwrap_or (first_value (found_of matches.now) (codes "ae")) []) asked.ae) }
    ensures bind { IfOk result (λ asked. SaysBind (first_value (found_of matches.now) (codes "bind")) asked.bind.now) }
    ensures port { IfOk result (λ asked. SaysPort (unwrap_or (first_value (found_of matches.now) (codes "port")) []) asked.port) }
    ensures from { IfOk result (λ asked. SaysFrom (first_value (found_of matches.now) (codes "from")) asked.from) }
    ensures peers { IfOk result (λ asked. NamePeers (argument_words (found_of matches.now) (codes "peer")) asked.peers.items) }
    ensures watchers { IfOk result (λ asked. NameWatchers (argument_words (found_of matches.now) (codes "peer")) asked.watchers.items) }
    ensures keep { IfOk result (λ asked. SaysKeep (first_value (found_of matches.now) (codes "keep")) asked.keep) }
    ensures offset { IfOk result (λ asked. SaysOffset (first_value (found_of matches.now) (codes "offset")) asked.offset) }
    ensures workers { IfOk result (λ asked. SaysWorkersOrNot (first_value (found_of matches.now) (codes "associations")) asked.limits.workers) }
    ensures turns { IfOk result (λ asked. asked.limits.turns ≡ turns_limit) }
    ensures idle { IfOk result (λ asked. SaysIdle (first_value (found_of matches.now) (codes "idle")) asked.limits.idle) }
    ensures timeout { IfOk result (λ asked. SaysTimeout (first_value (found_of matches.now) (codes "timeout")) asked.limits.timeout) }
    ensures delivery_timeout { IfOk result (λ asked. SaysDeliveryTimeout (first_value (found_of matches.now) (codes "delivery-timeout")) asked.limits.delivery_timeout) }
    ensures waiting { IfOk result (λ asked. SaysWaiting (first_value (found_of matches.now) (codes "waiting")) asked.limits.waiting) }
    ensures compact_at { IfOk result (λ asked. SaysCompactAtOrNot (first_value (found_of matches.now) (codes "compact-at")) asked.limits.compact_at) }
    ensures store { IfOk result (λ asked. option_map (λ w. w.now) asked.store ≡ first_value (found_of matches.now) (codes "store")) }
    ensures leave_out { IfOk result (λ asked. IsFlag (found_of matches.now) (codes "store-leave-out") asked.choices.may_leave_out) }
    ensures compact { IfOk result (λ asked. IsFlag (found_of matches.now) (codes "compact") asked.choices.may_compact) }
    ensures other_settings { IfOk result (λ asked. IsFlag (found_of matches.now) (codes "store-other-settings") asked.choices.may_change_terms) }
    ensures check { IfOk result (λ asked. IsFlag (found_of matches.now) (codes "check") asked.check) }
    ensures verbose { IfOk result (λ asked. IsFlag (found_of matches.now) (codes "verbose") asked.verbose) }
    ensures audit { IfOk result (λ asked. IsFlag (found_of matches.now) (codes "audit") asked.audit) }
    ensures metrics { IfOk result (λ asked. option_map (λ w. w.now) asked.metrics ≡ first_value (found_of matches.now) (codes "metrics")) }
    ensures apart { IfOk result (λ _. leave_alone (first_value (found_of matches.now) (codes "store")) (first_value (found_of matches.now) (codes "metrics")) ≡ true) }
    ensures some { IfOk result (λ asked. 1 ≤ asked.limits.workers) }
    ensures most { IfOk result (λ asked. asked.limits.workers ≤ workers_limit) }
    ensures few { IfOk result (λ asked. length asked.peers.items ≤ peer_limit) }
    ensures allowed { IfOk result (λ asked. refusal asked.peers.items asked.offset history_limit ≡ None) }
    ensures refused { IfErr result (FailToAskServe (found_of matches.now)) }
{
    let ae = ae_of(matches.get_str("ae").unwrap_or(""))?;
    let port = port_of(matches.get_str("port").unwrap_or(""))?;
    let service = script_arguments(alloc, matches)?;
    let watchers = watchers_of(alloc, matches.get_strs("peer").unwrap_or(&[]))?;
    let limits = limits_asked(matches)?;
    let from = from_asked(matches.get_str("from"))?;
    let store = matches.get_str("store");
    let metrics = metrics_asked(store, matches.get_str("metrics"))?;
    Ok(ServeArguments {
        ae,
        bind: bind_asked(matches.get_str("bind")),
        port,
        from,
        peers: service.peers,
        watchers,
        keep: service.keep,
        offset: service.offset,
        limits,
        store,
        choices: StartChoices {
            may_leave_out: matches.get_flag("store-leave-out"),
            may_compact: matches.get_flag("compact"),
            may_change_terms: matches.get_flag("store-other-settings"),
        },
        check: matches.get_flag("check"),
        verbose: matches.get_flag("verbose"),
        audit: matches.get_flag("audit"),
        metrics,
    })
}
