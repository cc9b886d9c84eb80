//! The number of connections that wait, from lists of sockets.

use fixtures::rows::{check_same, cut};
use std::net::SocketAddr;
use std::test::Fail;
use ups_transport::waiting_at;

/// Sockets for TCP over IPv4, as a system listed them on 2026-11-26, with three connections that wait at port 11112 of
/// 127.0.0.1, and none at port 11114 of any address.
const LIST: &str =
    "  sl  local_address rem_address   st tx_queue rx_queue tr tm->when retrnsmt   uid  timeout inode
   0: 00000000:2B6A 00000000:0000 0A 00000000:00000000 00:00000000 00000000     0        0 22664 1 00000000956b5f9f 100 0 0 10 0
   1: 00000000:07E8 00000000:0000 0A 00000000:00000000 00:00000000 00000000     0        0 3617 1 00000000a2525bbb 100 0 0 10 0
   2: 0100007F:2B68 00000000:0000 0A 00000000:00000003 00:00000000 00000000     0        0 22641 4 00000000835808b7 100 0 0 10 0
   3: 0100007F:2B68 0100007F:EA8A 01 00000000:00000000 00:00000000 00000000     0        0 0 1 00000000181fcba1 20 0 0 10 -1
   4: 0100007F:EA8A 0100007F:2B68 01 00000000:00000000 00:00000000 00000000     0        0 22642 2 000000001f2b547e 20 0 0 10 -1
";

/// The same over IPv6: 18 connections wait at port 11113 of ::1.
const LIST_6: &str =
    "  sl  local_address                         remote_address                        st tx_queue rx_queue tr tm->when retrnsmt   uid  timeout inode
   0: 00000000000000000000000001000000:2B69 00000000000000000000000000000000:0000 0A 00000000:00000012 00:00000000 00000000     0        0 22645 19 000000009f2f3532 100 0 0 10 0
   1: 00000000000000000000000001000000:2B69 00000000000000000000000001000000:B866 01 00000000:00000000 00:00000000 00000000     0        0 0 1 00000000fe1fdc80 20 0 0 10 -1
";

/// Addresses, each with the number of connections that wait there, or `-` if none of the sockets listens there.
const ROWS: &str = "\
127.0.0.1:11112 -> 3
0.0.0.0:11114 -> 0
0.0.0.0:11112 -> -
127.0.0.1:11114 -> -
127.0.0.1:60042 -> -
[::1]:11113 -> 18
[::1]:11112 -> -
[::1]:47206 -> -";

/// Returns as a word the number of connections that wait at an address.
fn told_of(rt: &impl AllocGlobal, address: &str) -> Result<String, Fail> {
    let address = address.parse::<SocketAddr>()?;
    let list = if address.is_ipv4() { LIST } else { LIST_6 }.as_bytes();
    Ok(match waiting_at(rt.alloc(), list, address) {
        Some(waiting) => format!(in rt.alloc(); "{waiting}")?,
        None => "-".to_string(rt.alloc())?,
    })
}

#[test]
fn the_connections_that_wait_at_a_listener_are_counted(rt: HostRuntime) -> Result<(), Fail> {
    for row in ROWS.lines() {
        let (address, count) = cut(row, " -> ")?;
        let told = told_of(&rt, address)?;
        check_same(row, told.as_str(), count)?;
    }
    Ok(())
}
