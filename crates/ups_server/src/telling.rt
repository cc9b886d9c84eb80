//! What is logged when a server begins.

use log::{Log, info, warn};
use std::str;
use ups_args::{ServeArguments, VERSION, provenance};
use ups_peers::ServerLimits;
use ups_terms::StartChoices;

/// Logs the version, where the program comes from, the settings of a server, and the address of each watcher; other peers are only counted.
pub(crate) fn tell_settings<R: Log>(rt: &R, asked: &ServeArguments<'_>) {
    let ServeArguments {
        bind,
        port,
        keep,
        offset,
        limits,
        store,
        choices,
        verbose,
        audit,
        metrics,
        ..
    } = asked;
    let ServerLimits {
        workers,
        idle,
        timeout,
        delivery_timeout,
        waiting,
        compact_at,
        ..
    } = limits;
    let StartChoices {
        may_leave_out,
        may_compact,
        may_change_terms,
    } = choices;
    let title = str::from_utf8(asked.ae.as_bytes()).unwrap_or("");
    let provenance = provenance();
    let (peers, watchers) = (asked.peers.len(), asked.watchers.len());
    info!(rt; target: "upsd", "upsd {VERSION}, {provenance}: ae={title} bind={bind} port={port} associations={workers} idle={idle} timeout={timeout} delivery-timeout={delivery_timeout} waiting={waiting} keep={keep} offset={offset} verbose={verbose} audit={audit} peers={peers} watchers={watchers} store={} store-leave-out={may_leave_out} store-other-settings={may_change_terms} compact={may_compact} compact-at={compact_at} metrics={}", store.unwrap_or("none"), metrics.unwrap_or("none"));
    if let Some(from) = asked.from {
        info!(rt; target: "upsd", "reports leave from {from}");
    }
    for watcher in asked.watchers.iter() {
        let title = str::from_utf8(watcher.ae.as_bytes()).unwrap_or("");
        match &watcher.address {
            Some(place) => {
                info!(rt; target: "upsd", "watcher {title} at {}, port {}", place.host, place.port);
            }
            None => {
                warn!(rt; target: "upsd", "watcher {title} has no address: its reports are given up");
            }
        }
    }
}
