//! Datagrams to the supervisor of the service, such as systemd, which says where it wants to be told (sd_notify(3)).

ghost use Rattle.std.specs.Prelude.{◌≤◌};
ghost use Rattle.std.specs.Option.{IfSome};

use libc::close;
use libc::net::{
    _SS_SIZE, AF_UNIX, MSG_DONTWAIT, MSG_NOSIGNAL, SOCK_CLOEXEC, SOCK_DGRAM, sendto, socket,
};

/// The place of the path in the address of a Unix socket, behind the family.
const PATH: usize = 2;

/// The maximum length of the path of a Unix socket, in bytes.
const LONGEST: usize = 107;

/// Writes the address of a Unix socket as the system reads it, and returns its length; a path that begins with `@` names
/// an abstract socket. Returns None if the path is empty or too long.
fn put_address(address: &mut [u8; _SS_SIZE], path: &[u8]) -> Option<u32>
    ensures { IfSome result (λ length. length ≤ 128) }
{
    if path.is_empty() || path.len() > LONGEST {
        return None;
    }
    address[..PATH].copy_from_slice(&(AF_UNIX as u16).to_ne_bytes());
    address[PATH..PATH + path.len()].copy_from_slice(path);
    if path[0] == b'@' {
        address[PATH] = 0;
    }
    Some((PATH + path.len()) as u32)
}

/// Sends a text to the Unix socket at a path, as one datagram. If the system refuses, or nobody reads, nothing is sent.
pub(crate) fn send_to(path: &str, text: &str) {
    let mut address = [0; _SS_SIZE];
    let Some(length) = put_address(&mut address, path.as_bytes()) else {
        return;
    };
    let descriptor = unsafe { socket(AF_UNIX, SOCK_DGRAM | SOCK_CLOEXEC, 0) };
    if descriptor < 0 {
        return;
    }
    let flags = MSG_NOSIGNAL | MSG_DONTWAIT;
    let _ = unsafe { sendto(descriptor, text.as_bytes(), flags, &address, length) };
    let _ = close(descriptor);
}
