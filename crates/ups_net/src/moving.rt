//! Watchers that listen elsewhere than at the start.

use crate::address_book::AddressBook;
use crate::monitor::Reminder;
use crate::options::ServerOptions;
use crate::roster::{Presence, Roster};
use crate::server_state::ServerState;
use log::{Log, info, warn};
use std::sync::Wait;
use std::time::Clock;
use ups_ledger::Keeping;
use ups_log::{moment_of, title_of};
use ups_peers::{Watcher, WatcherAddress};

/// The number of seconds between two looks into the address book.
const PAUSE: u64 = 10;

/// Moves a watcher to an address, and logs it, unless it listens there already.
fn move_one<R: Wait + Log>(
    rt: &R,
    presence: &Presence,
    watcher: &Watcher,
    address: &WatcherAddress,
) {
    let title = title_of(&watcher.ae);
    let WatcherAddress { host, port } = address;
    match presence.move_to(rt, address) {
        Ok(true) =>
            info!(rt; target: "upsd", "watcher {title}: its reports go to {host}:{port} now"),
        Ok(false) => {}
        Err(_) => {
            warn!(rt; target: "upsd", "watcher {title}: no memory for its address {host}:{port}")
        }
    }
}

/// Moves each watcher that is named with another address, unless it is retired, and rings for the deliverers.
fn move_all<R: Wait + Log>(rt: &R, roster: &Roster, watchers: &[Watcher], named: &[Watcher]) {
    for (place, watcher) in watchers.iter().enumerate() {
        if let Some(address) = watcher.address_in(named) {
            move_one(rt, roster.presence(place), watcher, address);
        }
    }
    roster.ring();
}

/// When the sweeper last looked into the address book.
#[derive(Clone, Copy)]
pub(crate) struct Mover {
    look: Reminder,
}

impl Mover {
    /// Creates the mover of a server that begins now.
    pub(crate) fn new() -> Mover {
        Mover {
            look: Reminder::of(PAUSE),
        }
    }

    /// Looks into the address book every ten seconds, and moves the watchers that listen elsewhere.
    pub(crate) fn look<K: Keeping, R: Wait + Clock + Log, B: AddressBook>(
        &mut self,
        rt: &R,
        state: &ServerState<K>,
        options: &ServerOptions,
        book: &mut B,
    ) {
        if !self.look.is_due(moment_of(rt)) {
            return;
        }
        if let Some(named) = book.look() {
            move_all(rt, &state.roster, &options.watchers, &named);
        }
    }
}
