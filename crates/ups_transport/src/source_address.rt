//! Connections that leave from a given address of this machine.

ghost use Rattle.std.specs.Prelude.{◌≡◌, ◌≤◌, ◌↔◌, true, None, IfSome, IsTrue};
ghost use Rattle.std.specs.Net.Addr.{is_ipv4};
ghost use Rattle.std.specs.Net.Socket.{socket_ip};

use libc::EINPROGRESS;
use libc::net::{
    _SS_SIZE, AF_INET, AF_INET6, POLLOUT, SOCK_CLOEXEC, SOCK_NONBLOCK, SOCK_STREAM, bind, connect,
    poll, socket,
};
use libc::types::pollfd;
use os::FromRawFd;
use std::io::{self, Error, ErrorKind};
use std::net::{IpAddr, SocketAddr, TcpStream};
use std::os::fd::AsRawFd;
use std::time::Duration;

/// The places of the fields in an address as the system reads it, behind the family (ip(7), ipv6(7)): the port, the IPv4
/// address or the flow of IPv6, the IPv6 address, and its scope.
const PORT: usize = 2;

const NEXT: usize = 4;

const IPV6: usize = 8;

const SCOPE: usize = 24;

/// The number of bytes of an address.
const IPV4_SIZE: u32 = 16;

const IPV6_SIZE: u32 = 28;

/// Returns whether a connection to an address can leave from an address of this machine: both are of the same version of
/// IP, or the system chooses from where it leaves.
pub fn can_leave(from: Option<IpAddr>, address: SocketAddr) -> bool
    ensures chosen { from ≡ None → result ≡ true }
    ensures given { IfSome from (λ ip. IsTrue result ↔ (is_ipv4 ip ≡ is_ipv4 (socket_ip address))) }
{
    match from {
        Some(ip) => ip.is_ipv4() == address.is_ipv4(),
        None => true,
    }
}

/// Returns an address as the system reads it, and its length.
fn raw_address(address: SocketAddr) -> ([u8; _SS_SIZE], u32)
    ensures { result.1 ≤ 128 }
{
    let mut raw = [0; _SS_SIZE];
    raw[PORT..NEXT].copy_from_slice(&address.port().to_be_bytes());
    match address {
        SocketAddr::V4(address) => {
            raw[..PORT].copy_from_slice(&(AF_INET as u16).to_ne_bytes());
            raw[NEXT..IPV6].copy_from_slice(&address.ip().octets());
            (raw, IPV4_SIZE)
        }
        SocketAddr::V6(address) => {
            raw[..PORT].copy_from_slice(&(AF_INET6 as u16).to_ne_bytes());
            raw[NEXT..IPV6].copy_from_slice(&address.flowinfo().to_ne_bytes());
            raw[IPV6..SCOPE].copy_from_slice(&address.ip().octets());
            raw[SCOPE..SCOPE + 4].copy_from_slice(&address.scope_id().to_ne_bytes());
            (raw, IPV6_SIZE)
        }
    }
}

/// Returns why the last call of the system failed.
fn last_fault() -> Error {
    Error::from_raw_os_error(os::errno())
}

/// Returns a socket for a connection to an address, which waits for nothing.
///
/// Errors: those of the system.
fn socket_to(address: SocketAddr) -> io::Result<TcpStream> {
    let kind = SOCK_STREAM | SOCK_NONBLOCK | SOCK_CLOEXEC;
    let descriptor = match address {
        SocketAddr::V4(_) => unsafe { socket(AF_INET, kind, 0) },
        SocketAddr::V6(_) => unsafe { socket(AF_INET6, kind, 0) },
    };
    if descriptor < 0 {
        return Err(last_fault());
    }
    Ok(unsafe { TcpStream::from_raw_fd(descriptor) })
}

/// Lets a socket send from an address, and any port there that is free.
///
/// Errors: those of the system, as AddrNotAvailable if the address isn't one of this machine.
fn leave_from(stream: &TcpStream, from: IpAddr) -> io::Result<()> {
    let (raw, length) = raw_address(SocketAddr::new(from, 0));
    if unsafe { bind(stream.as_raw_fd(), &raw, length) } < 0 {
        return Err(last_fault());
    }
    Ok(())
}

/// Begins to connect to an address, and returns whether that is done.
///
/// Errors: those of the system.
fn begin(stream: &TcpStream, address: SocketAddr) -> io::Result<bool> {
    let (raw, length) = raw_address(address);
    if unsafe { connect(stream.as_raw_fd(), &raw, length) } == 0 {
        return Ok(true);
    }
    let fault = last_fault();
    if fault.raw_os_error() == Some(EINPROGRESS) {
        return Ok(false);
    }
    Err(fault)
}

/// Returns a time in milliseconds as poll takes it: at least one; None is no limit.
fn milliseconds(limit: Option<Duration>) -> i32 {
    match limit {
        Some(limit) => i32::try_from(limit.as_millis()).unwrap_or(i32::MAX).max(1),
        None => -1,
    }
}

/// Waits until a socket is connected, for a limit; None is no limit.
///
/// Errors: why it isn't; TimedOut.
fn await_connection(stream: &TcpStream, limit: Option<Duration>) -> io::Result<()> {
    let mut asked = [pollfd {
        fd: stream.as_raw_fd(),
        events: POLLOUT,
        revents: 0,
    }];
    let ready = poll(&mut asked, milliseconds(limit));
    if ready < 0 {
        return Err(last_fault());
    }
    if ready == 0 {
        return Err(Error::from(ErrorKind::TimedOut));
    }
    match stream.take_error()? {
        Some(fault) => Err(fault),
        None => Ok(()),
    }
}

/// Connects from an address of this machine to another address, within a limit; None is no limit.
///
/// Errors: those of the system; TimedOut.
pub(crate) fn connect_from(
    from: IpAddr,
    address: SocketAddr,
    limit: Option<Duration>,
) -> io::Result<TcpStream> {
    let stream = socket_to(address)?;
    leave_from(&stream, from)?;
    if !begin(&stream, address)? {
        await_connection(&stream, limit)?;
    }
    stream.set_nonblocking(false)?;
    Ok(stream)
}
