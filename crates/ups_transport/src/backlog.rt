//! The number of connections that wait to be accepted, according to the socket lists of Linux.

use std::alloc::Allocator;
use std::io::BufRead;
use std::net::{IpAddr, SocketAddr};

/// The state of a listening socket in a list.
const LISTENS: &str = "0A";

/// Returns the file that lists the sockets of the IP version of an address.
pub(crate) fn list_of(address: SocketAddr) -> &'static str {
    match address.ip() {
        IpAddr::V4(_) => "/proc/net/tcp",
        IpAddr::V6(_) => "/proc/net/tcp6",
    }
}

/// Returns an address as a list shows it, or None if memory runs out: in hexadecimal, four bytes at a time with the
/// last one first, and the port.
fn listed<A: Allocator + Copy>(alloc: A, octets: &mut [u8], port: u16) -> Option<String<A>> {
    for word in octets.chunks_mut(4) {
        word.reverse();
    }
    let digits = hex::encode_upper(alloc, &*octets).ok()?;
    format!(in alloc; "{digits}:{port:04X}").ok()
}

/// Returns how many connections wait at the socket of a line, or None if it is not the one that listens at this
/// address.
fn waiting_in(line: &str, listed: &str) -> Option<u64> {
    let mut words = line.split_ascii_whitespace();
    let local = words.nth(1)?;
    let state = words.nth(1)?;
    let (_, waiting) = words.next()?.split_once(':')?;
    if local != listed || state != LISTENS {
        return None;
    }
    u64::from_str_radix(waiting, 16).ok()
}

/// Returns how many connections wait to be accepted by the socket that listens at an address.
///
/// `list` is the list of the sockets of its IP version, as in `/proc/net/tcp` and `/proc/net/tcp6`. Listening sockets
/// come first, so a long list is not read to its end. Returns None if the socket is not listed, memory runs out or the
/// list can't be read.
pub fn waiting_at<A: Allocator + Copy, L: BufRead + Drop>(
    alloc: A,
    list: L,
    address: SocketAddr,
) -> Option<u64> {
    let port = address.port();
    let listed = match address.ip() {
        IpAddr::V4(ip) => listed(alloc, &mut ip.octets(), port)?,
        IpAddr::V6(ip) => listed(alloc, &mut ip.octets(), port)?,
    };
    for line in list.lines(alloc) {
        if let Some(waiting) = waiting_in(&line.ok()?, &listed) {
            return Some(waiting);
        }
    }
    None
}
