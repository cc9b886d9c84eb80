//! The network of a runtime, whatever it logs to.

use crate::backlog::{list_of, waiting_at};
use crate::memory::{ProcessMemory, limit_in, memory_in};
use crate::source_address::connect_from;
use crate::supervisor::send_to;
use log::Handle;
use std::fs::{File, Permissions};
use std::io::{self, BufReader, ErrorKind, Write};
use std::net::{IpAddr, SocketAddr, TcpListener, TcpStream, ToSocketAddrs};
use std::os::unix::fs::PermissionsExt;
use std::time::Duration;
use std::{env, fs};

/// The maximum number of addresses of a host that are used.
pub const MAX_ADDRESSES: usize = 8;

/// A runtime with the network of the host, as a server needs it.
///
/// The `Handle` of `log`, a runtime that logs elsewhere, neither looks a name up nor connects within a time limit by
/// itself: here it does what the runtime inside it does.
pub trait Network {
    /// Returns the addresses of a host, given by name or number, with this port, in the order of the name service: the first
    /// eight, or none if it has none.
    ///
    /// # Errors
    ///
    /// If looking the name up fails; OutOfMemory.
    fn look_up(&self, host: &str, port: u16) -> io::Result<Vec<SocketAddr>>;

    /// Connects to an address within a limit; None is no limit. The connection leaves from an address of this machine, or
    /// from the one that the system chooses.
    ///
    /// # Errors
    ///
    /// If connecting fails, as AddrNotAvailable if this machine does not have the address to leave from; TimedOut if it
    /// takes longer.
    fn connect(
        &self,
        from: Option<IpAddr>,
        address: SocketAddr,
        limit: Option<Duration>,
    ) -> io::Result<TcpStream>;

    /// Listens at a host, given by name or number, and a port.
    ///
    /// # Errors
    ///
    /// If looking the name up or listening fails.
    fn listen(&self, host: &str, port: u16) -> io::Result<TcpListener>;

    /// Returns how many connections wait to be accepted at an address at which this program listens, or None if the
    /// system does not tell.
    fn waiting_at(&self, address: SocketAddr) -> Option<u64>;

    /// Returns how much memory this process has, or None if the system does not tell.
    fn memory(&self) -> Option<ProcessMemory>;

    /// Returns how many bytes this process may have addresses for, or None if there is no limit, or the system does not
    /// tell.
    fn memory_limit(&self) -> Option<u64>;

    /// Tells the supervisor of the service, such as systemd, how it is: lines of sd_notify(3), as `READY=1`. Does
    /// nothing if there is no supervisor that asks to be told (`NOTIFY_SOCKET`).
    fn tell_supervisor(&self, state: &str);

    /// Puts bytes in the place of a file, which everybody may read. They are written to another file beside it, with
    /// `.new` behind its name, which then takes its name: so who reads the file never sees a part of them. That file is
    /// made anew: a file or link that has its name before is removed, and nothing is written through it.
    ///
    /// # Errors
    ///
    /// If memory runs out, or a file can't be written or renamed: the file is as it was then.
    fn replace_file(&self, file: &str, bytes: &[u8]) -> io::Result<()>;
}

/// Who may read a file that is put in the place of another: everybody, whatever the umask is.
const FOR_ALL: u32 = 0o644;

/// Removes a file or a link, if there is one of this name.
///
/// Errors: if it can't be removed.
fn remove(rt: &HostRuntime, file: &str) -> io::Result<()> {
    match fs::remove_file(rt, file) {
        Err(fault) if fault.kind() != ErrorKind::NotFound => Err(fault),
        _ => Ok(()),
    }
}

impl Network for HostRuntime {
    fn look_up(&self, host: &str, port: u16) -> io::Result<Vec<SocketAddr>> {
        let mut found = Vec::new(self.alloc());
        for address in (host, port).to_socket_addrs(self)?.take(MAX_ADDRESSES) {
            found.push(address)?;
        }
        Ok(found)
    }

    fn connect(
        &self,
        from: Option<IpAddr>,
        address: SocketAddr,
        limit: Option<Duration>,
    ) -> io::Result<TcpStream> {
        match (from, limit) {
            (Some(from), _) => connect_from(from, address, limit),
            (None, Some(limit)) => TcpStream::connect_timeout(self, &address, limit),
            (None, None) => TcpStream::connect(self, address),
        }
    }

    fn listen(&self, host: &str, port: u16) -> io::Result<TcpListener> {
        TcpListener::bind(self, (host, port))
    }

    fn waiting_at(&self, address: SocketAddr) -> Option<u64> {
        let list = fs::open(self, list_of(address)).ok()?;
        let list = BufReader::new(self.alloc(), list).ok()?;
        waiting_at(self.alloc(), list, address)
    }

    fn memory(&self) -> Option<ProcessMemory> {
        let status = fs::open(self, "/proc/self/status").ok()?;
        memory_in(self.alloc(), BufReader::new(self.alloc(), status).ok()?)
    }

    fn memory_limit(&self) -> Option<u64> {
        let limits = fs::open(self, "/proc/self/limits").ok()?;
        limit_in(self.alloc(), BufReader::new(self.alloc(), limits).ok()?)
    }

    fn tell_supervisor(&self, state: &str) {
        if let Ok(path) = env::var(self, "NOTIFY_SOCKET") {
            send_to(path.as_str(), state);
        }
    }

    fn replace_file(&self, file: &str, bytes: &[u8]) -> io::Result<()> {
        let beside = format!(in self.alloc(); "{file}.new")?;
        remove(self, beside.as_str())?;
        let mut written = File::create_new(self, beside.as_str())?;
        written.set_permissions(Permissions::from_mode(FOR_ALL))?;
        written.write_all(bytes)?;
        drop(written);
        fs::rename(self, beside.as_str(), file)
    }
}

impl<R: Network, L> Network for Handle<R, L> {
    fn look_up(&self, host: &str, port: u16) -> io::Result<Vec<SocketAddr>> {
        self.inner().look_up(host, port)
    }

    fn connect(
        &self,
        from: Option<IpAddr>,
        address: SocketAddr,
        limit: Option<Duration>,
    ) -> io::Result<TcpStream> {
        self.inner().connect(from, address, limit)
    }

    fn listen(&self, host: &str, port: u16) -> io::Result<TcpListener> {
        self.inner().listen(host, port)
    }

    fn waiting_at(&self, address: SocketAddr) -> Option<u64> {
        self.inner().waiting_at(address)
    }

    fn memory(&self) -> Option<ProcessMemory> {
        self.inner().memory()
    }

    fn memory_limit(&self) -> Option<u64> {
        self.inner().memory_limit()
    }

    fn tell_supervisor(&self, state: &str) {
        self.inner().tell_supervisor(state);
    }

    fn replace_file(&self, file: &str, bytes: &[u8]) -> io::Result<()> {
        self.inner().replace_file(file, bytes)
    }
}
