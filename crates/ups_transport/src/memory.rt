//! The memory of this process, according to the files of Linux about it.

use std::alloc::Allocator;
use std::io::BufRead;

/// What of the memory of a process has a number of its own, as `/proc/self/status` and `/proc/self/limits` name it.
const RESIDENT: &str = "VmRSS:";

const ADDRESSES: &str = "VmSize:";

const MOST_ADDRESSES: &str = "Max address space";

/// The number of bytes in a kB of `/proc/self/status`.
const KILOBYTE: u64 = 1_024;

/// The memory of a process, in bytes.
#[derive(Clone, Copy, Debug, PartialEq, Eq)]
pub struct ProcessMemory {
    /// What is in memory of it.
    pub resident: u64,
    /// What it has addresses for, which is what a limit is about (`LimitAS=` of systemd).
    pub addresses: u64,
}

/// Returns the number of bytes behind a name that begins a line of `/proc/self/status`, or None if another one does.
fn bytes_in(line: &str, name: &str) -> Option<u64> {
    let mut words = line.strip_prefix(name)?.split_ascii_whitespace();
    let kilobytes = words.next()?.parse::<u64>().ok()?;
    kilobytes.checked_mul(KILOBYTE)
}

/// Returns the memory of the process whose `/proc/PID/status` this is, or None if the file does not tell, can't be read,
/// or memory runs out.
pub fn memory_in<A: Allocator + Copy, S: BufRead + Drop>(
    alloc: A,
    status: S,
) -> Option<ProcessMemory> {
    let mut resident = None;
    let mut addresses = None;
    for line in status.lines(alloc) {
        let line = line.ok()?;
        resident = resident.or(bytes_in(&line, RESIDENT));
        addresses = addresses.or(bytes_in(&line, ADDRESSES));
    }
    Some(ProcessMemory {
        resident: resident?,
        addresses: addresses?,
    })
}

/// Returns the limit of addresses in a line of `/proc/self/limits`, or None if the line is about another limit, or there is
/// none.
fn most_in(line: &str) -> Option<u64> {
    let mut words = line.strip_prefix(MOST_ADDRESSES)?.split_ascii_whitespace();
    words.next()?.parse::<u64>().ok()
}

/// Returns how many bytes the process whose `/proc/PID/limits` this is may have addresses for, or None if there is no
/// limit, the file can't be read, or memory runs out.
pub fn limit_in<A: Allocator + Copy, L: BufRead + Drop>(alloc: A, limits: L) -> Option<u64> {
    for line in limits.lines(alloc) {
        if let Some(most) = most_in(&line.ok()?) {
            return Some(most);
        }
    }
    None
}
