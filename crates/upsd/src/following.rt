//! The file of peers of a running server, which is read again: watchers may listen elsewhere.

ghost use Rattle.std.specs.Prelude.{◌≡◌, ◌≢◌, MatchOption};

use crate::naming::{NamedWords, text_of};
use log::{Log, warn};
use std::alloc::Global;
use std::fmt::Display;
use std::fs;
use ups_args::{ArgumentFault, command, serve_arguments};
use ups_life::Peer;
use ups_log::title_of;
use ups_net::AddressBook;
use ups_peers::Watcher;

/// The peers that a command line names, and behind them where each of them listens.
#[derive(Drop)]
struct Named {
    peers: Vec<Peer>,
    watchers: Vec<Watcher>,
}

/// What a server is told at its start alone of a peer.
#[derive(Clone, Copy, PartialEq, Eq)]
struct Standing {
    /// Whether it may lock steps.
    lock: bool,
    /// Whether it is retired, and has no address.
    is_retired: bool,
}

impl Named {
    /// Returns the standing of the peer with the title of this one, if there is one.
    fn standing_of(&self, peer: &Peer) -> Option<Standing> {
        let mut pairs = self.peers.iter().zip(self.watchers.iter());
        let (peer, watcher) = pairs.find(|pair| pair.0.ae == peer.ae)?;
        Some(Standing {
            lock: peer.lock,
            is_retired: watcher.address.is_none(),
        })
    }
}

/// Returns the peers that the words of `serve` name, and where they listen.
///
/// Errors: those of the words; Memory also if they are no words of `serve`.
fn named_by<'a>(alloc: Global, words: &'a [String]) -> Result<Named, ArgumentFault<'a>> {
    let Ok(matches) = command(alloc)?.try_get_matches_from(words) else {
        return Err(ArgumentFault::Memory);
    };
    let Some(("serve", matches)) = matches.subcommand() else {
        return Err(ArgumentFault::Memory);
    };
    let asked = serve_arguments(alloc, matches)?;
    Ok(Named {
        peers: asked.peers,
        watchers: asked.watchers,
    })
}

/// Returns what is new in the standing of a peer, or None if nothing is.
fn news_of(start: Standing, now: Standing) -> Option<&'static str>
    ensures { MatchOption result (start ≡ now) (λ _. start ≢ now) }
{
    if start.is_retired != now.is_retired {
        return Some(if now.is_retired {
            "is retired"
        } else {
            "is no longer retired"
        });
    }
    if start.lock != now.lock {
        return Some(if now.lock {
            "may lock steps"
        } else {
            "may no longer lock steps"
        });
    }
    None
}

/// Returns what is new in the standing of a peer between the start and now, for each of which it may be named or not; None
/// if nothing is.
fn news_between(start: Option<Standing>, now: Option<Standing>) -> Option<&'static str>
    ensures { MatchOption result (start ≡ now) (λ _. start ≢ now) }
{
    match (start, now) {
        (None, None) => None,
        (None, Some(_)) => Some("is named"),
        (Some(_), None) => Some("is no longer named"),
        (Some(start), Some(now)) => news_of(start, now),
    }
}

/// The file of peers of a server, if it has one.
#[derive(Drop)]
pub(crate) struct PeersFile<'a, R: Log> {
    rt: &'a HostRuntime,
    telling: &'a R,
    /// The words of the command line and of the file at the start.
    named: &'a NamedWords,
    /// Its text at the last look.
    text: String,
    /// Whether it could not be read at the last look.
    is_unread: bool,
}

impl<'a, R: Log> PeersFile<'a, R> {
    /// Returns the file of peers that is named by the words of a command line, and a log for what it says.
    pub(crate) fn new(
        rt: &'a HostRuntime,
        telling: &'a R,
        named: &'a NamedWords,
    ) -> PeersFile<'a, R> {
        PeersFile {
            rt,
            telling,
            named,
            text: String::new(rt.alloc()),
            is_unread: false,
        }
    }

    /// Logs why no watcher listens elsewhere by the file.
    fn tell_fault<F: Display + Drop>(&self, path: &str, fault: F) {
        warn!(self.telling; target: "upsd", "--peers {path}: {fault}: no watcher is named anew");
    }

    /// Logs what takes effect at a restart alone.
    fn tell_rest(&self, path: &str, start: &Named, now: &Named) {
        let gone = start
            .peers
            .iter()
            .filter(|peer| now.standing_of(peer).is_none());
        for peer in gone.chain(now.peers.iter()) {
            if let Some(news) = news_between(start.standing_of(peer), now.standing_of(peer)) {
                let title = title_of(&peer.ae);
                warn!(self.telling; target: "upsd", "--peers {path}: {title} {news}: that takes a restart");
            }
        }
    }

    /// Returns whether the file is one that can be read again, or is missing: a pipe can't.
    fn is_lasting(&self, path: &str) -> bool {
        match fs::metadata(self.rt, path) {
            Ok(found) => found.is_file(),
            Err(_) => true,
        }
    }

    /// Returns the text of the file, if it differs from that of the last look. If the file can't be read, logs it, unless
    /// that was so at the last look.
    fn new_text(&mut self, path: &str) -> Option<String> {
        match text_of(self.rt, path) {
            Ok(text) => {
                self.is_unread = false;
                if text.as_str() == self.text.as_str() {
                    return None;
                }
                Some(text)
            }
            Err(fault) => {
                if !self.is_unread {
                    self.tell_fault(path, fault);
                }
                self.is_unread = true;
                None
            }
        }
    }

    /// Returns the watchers if the file has this text; None after logging why it is refused. Logs also what takes effect
    /// at a restart alone.
    fn watchers_by(&self, path: &str, text: &str) -> Option<Vec<Watcher>> {
        let alloc = self.rt.alloc();
        let words = match self.named.with_text(alloc, text) {
            Ok(words) => words,
            Err(fault) => {
                self.tell_fault(path, fault);
                return None;
            }
        };
        match (
            named_by(alloc, self.named.as_slice()),
            named_by(alloc, &words),
        ) {
            (Ok(start), Ok(now)) => {
                self.tell_rest(path, &start, &now);
                Some(now.watchers)
            }
            (Err(fault), _) | (Ok(_), Err(fault)) => {
                self.tell_fault(path, fault);
                None
            }
        }
    }
}

impl<'a, R: Log> AddressBook for PeersFile<'a, R> {
    fn look(&mut self) -> Option<Vec<Watcher>> {
        let named = self.named;
        let path = named.path()?;
        if !self.is_lasting(path) {
            return None;
        }
        let text = self.new_text(path)?;
        let watchers = self.watchers_by(path, text.as_str());
        self.text = text;
        watchers
    }
}
