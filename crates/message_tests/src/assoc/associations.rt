//! Association requests.

use fixtures::title;
use std::alloc::Allocator;
use std::test::*;
use ups_assoc::*;
use ups_pdu::{AssociateRq, Pdu};

/// Returns the configuration of the application entity UPSD, in UTC.
pub(crate) fn this_server() -> Result<Config, Fail> {
    Ok(Config {
        ae: title("UPSD")?,
        offset: 0,
    })
}

/// Returns the association request that a PDU is.
pub(crate) fn request_in<A: Allocator + Copy>(pdu: &Pdu<A>) -> Result<&AssociateRq<A>, Fail> {
    match pdu {
        Pdu::AssociateRq(request) => Ok(request),
        _ => Err("no request".into()),
    }
}
