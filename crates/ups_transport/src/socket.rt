//! The settings of connections, and waiting for them.

use libc::net::{IPPROTO_TCP, POLLIN, TCP_QUICKACK, listen, poll, setsockopt};
use libc::types::pollfd;
use std::io;
use std::net::{TcpListener, TcpStream};
use std::os::fd::AsRawFd;
use std::time::Duration;

/// Returns a number of seconds as a limit, or None for 0.
pub fn limit_of(seconds: u32) -> Option<Duration> {
    if seconds == 0 {
        return None;
    }
    Some(Duration::from_secs(u64::from(seconds)))
}

/// Makes a connection acknowledge at once what it received (TCP_QUICKACK). The system returns to late acknowledgments
/// by itself. If it refuses, nothing changes.
pub(crate) fn acknowledge(stream: &TcpStream) {
    let mut on = [0; 16];
    on[..4].copy_from_slice(&1i32.to_ne_bytes());
    let _ = unsafe { setsockopt(stream.as_raw_fd(), IPPROTO_TCP, TCP_QUICKACK, &on, 4) };
}

/// The maximum number of connections that wait at a listener, if the system allows as many.
const QUEUE: i32 = 1_024;

/// Lets up to `QUEUE` connections wait at a listener. If the system refuses, nothing changes.
pub(crate) fn lengthen_queue(listener: &TcpListener) {
    let _ = listen(listener.as_raw_fd(), QUEUE);
}

/// Returns a descriptor to poll for whether something has come.
fn asked_of(descriptor: i32) -> pollfd {
    pollfd {
        fd: descriptor,
        events: POLLIN,
        revents: 0,
    }
}

/// Returns whether something comes on a connection within `milliseconds`, or it ends.
pub(crate) fn has_come(stream: &TcpStream, milliseconds: i32) -> bool {
    let mut asked = [asked_of(stream.as_raw_fd())];
    poll(&mut asked, milliseconds) > 0 && asked[0].revents != 0
}

/// Returns whether a connection waits at a listener.
pub(crate) fn is_waited(listener: &TcpListener) -> bool {
    let mut asked = [asked_of(listener.as_raw_fd())];
    poll(&mut asked, 0) > 0 && asked[0].revents != 0
}

/// Makes a connection send each answer at once (TCP_NODELAY), and end each read and write that takes longer than a
/// limit; None is no limit.
///
/// # Errors
///
/// If the connection fails.
pub fn tune(stream: &TcpStream, limit: Option<Duration>) -> io::Result<()> {
    stream.set_nodelay(true)?;
    stream.set_read_timeout(limit)?;
    stream.set_write_timeout(limit)
}
