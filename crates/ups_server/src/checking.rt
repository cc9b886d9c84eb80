//! A look at what a start would find, without a start.

ghost use Rattle.std.specs.Prelude.{◌≡◌, ◌≤◌, ◌⊎◌, length, None, IfErr, IfOk};
ghost use Rattle.clap.specs.Matches.{found_of};
ghost use Rattle.ups_args.specs.Arguments.{FailToAskServe};
ghost use Rattle.ups_args.specs.declared.server.ServeArguments.{ServeArguments};
ghost use Rattle.ups_life.specs.Limits.{history_limit, peer_limit};
ghost use Rattle.ups_settings.specs.Refusal.{refusal};
ghost use Rattle.ups_server.specs.Serving.{AreWords};

use crate::opener::{StoreOpener, Unopened};
use crate::serving::new_manager;
use crate::telling::tell_settings;
use clap::ArgMatches;
use log::{Log, info, warn};
use std::alloc::{AllocError, Global};
use std::net::{IpAddr, SocketAddr};
use std::{io, str};
use ups_args::{ArgumentFault, ServeArguments, serve_arguments};
use ups_ledger::Ledger;
use ups_peers::{Watcher, WatcherAddress};
use ups_transport::{Network, can_leave};

/// Warns if no report can leave from an address of this machine to any of the addresses of a host.
fn tell_unreachable<R: Log>(
    rt: &R,
    title: &str,
    host: &str,
    from: IpAddr,
    addresses: &[SocketAddr],
) {
    if !addresses.is_empty()
        && !addresses
            .iter()
            .any(|address| can_leave(Some(from), *address))
    {
        warn!(rt; target: "upsd", "watcher {title}: {host} has no address of the version of {from}");
    }
}

/// Looks the host of a watcher up, and logs its addresses, or that it has none, or none to which reports can leave: a server
/// starts all the same, and looks it up again for each delivery.
fn tell_addresses<R: Network + Log>(rt: &R, from: Option<IpAddr>, watcher: &Watcher) {
    let Some(WatcherAddress { host, port }) = &watcher.address else {
        return;
    };
    let title = str::from_utf8(watcher.ae.as_bytes()).unwrap_or("");
    let host = host.as_str();
    let addresses = match rt.look_up(host, *port) {
        Ok(addresses) => addresses,
        Err(fault) => {
            warn!(rt; target: "upsd", "watcher {title}: {host} has no address, {fault}");
            return;
        }
    };
    if addresses.is_empty() {
        warn!(rt; target: "upsd", "watcher {title}: {host} has no address");
    }
    for address in addresses.iter() {
        info!(rt; target: "upsd", "watcher {title}: {host} is {address}");
    }
    if let Some(from) = from {
        tell_unreachable(rt, title, host, from, &addresses);
    }
}

/// Prints why a server can't listen at an address and a port; port 0 stands for any.
pub(crate) fn tell_unheard<R: Eprint>(rt: &R, bind: &str, port: u16, fault: io::Error) {
    let _ = match port {
        0 => eprintln!(rt; "upsd: it can't listen on {bind}: {fault}"),
        _ => eprintln!(rt; "upsd: it can't listen on {bind}, port {port}: {fault}"),
    };
}

/// Returns whether a server can listen at an address and a port, or any port if it is 0, and prints it if not.
pub(crate) fn can_listen<R: Network + Eprint>(rt: &R, bind: &str, port: u16) -> bool {
    match rt.listen(bind, port) {
        Ok(_) => true,
        Err(fault) => {
            tell_unheard(rt, bind, port, fault);
            false
        }
    }
}

/// Returns whether this machine has the address from which reports are to leave, and prints it if not.
///
/// Errors: lack of memory.
fn has_source_address<R: Network + AllocGlobal + Eprint>(
    rt: &R,
    from: Option<IpAddr>,
) -> Result<bool, AllocError> {
    let Some(from) = from else {
        return Ok(true);
    };
    let host = format!(in rt.alloc(); "{from}")?;
    match rt.listen(host.as_str(), 0) {
        Ok(_) => Ok(true),
        Err(fault) => {
            let _ = eprintln!(rt; "upsd: no report can leave from {host}: {fault}");
            Ok(false)
        }
    }
}

/// Returns the port at which a start can be tried beside a running server on this port: any, if it is the same one, or if
/// none runs that is known.
fn port_to_try(asked: u16, taken: Option<u16>) -> u16 {
    match taken {
        Some(port) if port != asked => asked,
        _ => 0,
    }
}

/// What a look at the store of a server found.
#[derive(Clone, Copy, Debug, PartialEq, Eq)]
struct LookedAt {
    /// Whether a start can use it.
    is_usable: bool,
    /// The port of the server that has it, if one has it.
    taken: Option<u16>,
}

/// Looks at the store that the command line names, if it names one, and prints why a server can't use it.
///
/// Errors: lack of memory.
fn look_at_store<'a, L: Ledger, O: StoreOpener<'a, L>>(
    alloc: Global,
    opener: &O,
    asked: &ServeArguments<'a>,
) -> Result<LookedAt, AllocError>
    requires few { length asked.now.peers.items ≤ peer_limit }
    requires allowed { refusal asked.now.peers.items asked.now.offset history_limit ≡ None }
{
    let Some(file) = asked.store else {
        return Ok(LookedAt {
            is_usable: true,
            taken: None,
        });
    };
    let manager = new_manager(alloc, asked)?;
    match opener.look(file, asked.choices, &manager) {
        Ok(taken) => Ok(LookedAt {
            is_usable: true,
            taken,
        }),
        Err(Unopened::Told) => Ok(LookedAt {
            is_usable: false,
            taken: None,
        }),
        Err(Unopened::Memory) => Err(AllocError),
    }
}

/// Parses the words of `serve`, and looks at what a start would find: the addresses of the watchers, the store, and the
/// address to listen on, with its port if a server has the store that listens on another one. Nothing is served, no request is entered, and no run begins. Returns whether a server can
/// start, as far as that can be seen, after printing why not. A watcher without an address is only logged.
///
/// # Errors
///
/// Those of the words, as in [`ArgumentFault`]; Memory also if memory ran out for the look.
pub fn check_words<'a, L: Ledger, O: StoreOpener<'a, L>, R>(
    rt: &R,
    opener: &O,
    matches: &ArgMatches<'a>,
) -> Result<bool, ArgumentFault<'a>>
where
    R: Log + AllocGlobal + Eprint + Network,
    ensures words { IfOk result (λ _. (asked : ServeArguments) × AreWords (found_of matches.now) asked) }
    ensures refused { IfErr result (λ fault. FailToAskServe (found_of matches.now) fault ⊎ (fault ≡ ArgumentFault.Memory)) }
{
    let asked = serve_arguments(rt.alloc(), matches)?;
    tell_settings(rt, &asked);
    for watcher in asked.watchers.iter() {
        tell_addresses(rt, asked.from, watcher);
    }
    let store = look_at_store(rt.alloc(), opener, &asked)?;
    let can_listen = can_listen(rt, asked.bind, port_to_try(asked.port, store.taken));
    let can_leave = has_source_address(rt, asked.from)?;
    Ok(can_listen && can_leave && store.is_usable)
}
