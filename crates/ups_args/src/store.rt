//! The store of accepted requests: its file, and what a start may do with its requests.

ghost use Rattle.std.specs.Prelude.{◌≡◌, true, false, option_map, IfErr, IfOk};
ghost use Rattle.ups_args.specs.Arguments.{are_apart, goes_on_with, is_of_store, leave_alone, name_at};
ghost use Rattle.ups_args.specs.declared.fault.ArgumentFault.TheVariants.{Metrics};

use crate::fault::ArgumentFault;
use crate::options::{flag, worded};
use clap::builder::ValueParser;
use clap::{Arg, Command};
use std::alloc::{AllocError, Global};
use std::path::Path;

/// Adds the options for the store of a server.
pub(crate) fn with_store<'a>(
    alloc: Global,
    command: Command<'a>,
) -> Result<Command<'a>, AllocError> {
    let store =
        "the file that keeps accepted requests over a restart [default: none, memory alone]";
    let compact = "compact the store at this start, if more than half of its requests then go";
    let compact_at =
        "how many requests the store takes before it is compacted while the server runs [default: 50000]";
    let compact_at = worded(alloc, "compact-at", "N", compact_at);
    command
        .arg(naming_file(worded(alloc, "store", "FILE", store)))?
        .arg(leave_out_flag(alloc).requires_arg("store")?)?
        .arg(other_settings_flag(alloc).requires_arg("store")?)?
        .arg(flag(alloc, "compact", compact).requires_arg("store")?)?
        .arg(compact_at.requires_arg("store")?)
}

/// Returns the argument that names the file of a store.
pub(crate) fn store_word<'a>(alloc: Global, help: &'a str) -> Arg<'a> {
    let word = Arg::new(alloc, "store")
        .value_name("FILE")
        .help(help)
        .required(true);
    naming_file(word)
}

/// Returns an argument that names a file, and so is not empty.
pub(crate) fn naming_file<'a>(arg: Arg<'a>) -> Arg<'a> {
    arg.value_parser(ValueParser::NonEmptyString)
}

/// Returns the option that allows leaving requests out.
pub(crate) fn leave_out_flag<'a>(alloc: Global) -> Arg<'a> {
    let leave_out =
        "leave out requests of the store that these settings do not accept, in place of ending at the first";
    flag(alloc, "store-leave-out", leave_out)
}

/// Returns the option that allows other settings than those of the last run.
pub(crate) fn other_settings_flag<'a>(alloc: Global) -> Arg<'a> {
    let other_settings =
        "go on though --keep or --offset is not that of the store's last run, or a peer or a right is missing";
    flag(alloc, "store-other-settings", other_settings)
}

/// Returns the name of the file at a path, without its folder.
fn name_at<'a>(path: &'a str) -> &'a str
    ensures { result.now ≡ name_at path.now }
{
    Path::new(path).file_name().unwrap_or(path)
}

/// Returns whether a name is `start`, and `ending` behind it.
fn goes_on_with(start: &str, ending: &str, name: &str) -> bool
    ensures { result ≡ goes_on_with start.now ending.now name.now }
{
    let name = name.as_bytes();
    let start = start.as_bytes();
    name.starts_with(start) && &name[start.len()..] == ending.as_bytes()
}

/// Returns whether a name is that of a file of the store with this name: its file, the log beside it, the memory beside
/// that, and its terms.
fn is_of_store(store: &str, name: &str) -> bool
    ensures { result ≡ is_of_store store.now name.now }
{
    goes_on_with(store, "", name)
        || goes_on_with(store, "-wal", name)
        || goes_on_with(store, "-shm", name)
        || goes_on_with(store, "-terms", name)
}

/// Returns whether numbers can be written into a file and leave a store alone: neither that file has the name of one of the
/// store, nor that beside it into which they are written first. Their folders are not looked at, since one folder may have
/// several paths.
fn are_apart(store: &str, metrics: &str) -> bool
    ensures { result ≡ are_apart store.now metrics.now }
{
    let store = name_at(store);
    let metrics = name_at(metrics);
    !is_of_store(store, metrics) && !goes_on_with(metrics, ".new", store)
}

/// Returns the file into which the numbers of a server are written, if there is one.
///
/// Errors: Metrics if it is not apart from the store.
pub(crate) fn metrics_asked<'a>(
    store: Option<&str>,
    metrics: Option<&'a str>,
) -> Result<Option<&'a str>, ArgumentFault<'a>>
    ensures said { IfOk result (λ asked. asked ≡ metrics.entry) }
    ensures apart { IfOk result (λ _. leave_alone (option_map (λ w. w.now) store.entry) (option_map (λ w. w.now) metrics.entry) ≡ true) }
    ensures refused { IfErr result (λ fault. (fault ≡ Metrics) × (leave_alone (option_map (λ w. w.now) store.entry) (option_map (λ w. w.now) metrics.entry) ≡ false)) }
{
    match (store, metrics) {
        (Some(store), Some(file)) if !are_apart(store, file) => Err(ArgumentFault::Metrics),
        _ => Ok(metrics),
    }
}
