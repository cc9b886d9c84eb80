//! The state transition table (PS3.8 table 9-10).

ghost use Rattle.std.specs.Prelude.{◌≡◌};
ghost use Rattle.ups_ulstate.specs.Table.{state_number, cells, action_of, after, next_of};
ghost use Rattle.ups_ulstate.specs.declared.state.UlEvent.TheVariants as events;

use crate::state::UlState::{
    self, Sta1, Sta2, Sta3, Sta4, Sta5, Sta6, Sta7, Sta8, Sta9, Sta10, Sta11, Sta12, Sta13,
};
use crate::state::{UlAction, UlEvent};

/// Returns the action that an event calls for in a state, and the state after it.
///
/// Returns None if the table has no such cell, so that the event can't occur there (PS3.8 section 9.2.3). `requestor`
/// says whether this side requested the association, which decides the state after a release collision; `acceptable`
/// says whether the service provider can accept the association request, which decides the state after the request
/// was read.
pub fn next(
    state: UlState,
    event: UlEvent,
    requestor: bool,
    acceptable: bool,
) -> Option<(UlAction, UlState)>
    ensures { result ≡ next_of requestor acceptable event state }
{
    let action = action_at(event, state)?;
    Some((action, after(action, requestor, acceptable)))
}

/// Returns the action of a cell.
fn action_at(event: UlEvent, state: UlState) -> Option<UlAction>
    ensures { result ≡ action_of (state_number state) (cells event) }
{
    match (event, state) {
        (UlEvent::AssociateRequest, Sta1) => Some(UlAction::Ae1),
        (UlEvent::TransportConfirmed, Sta4) => Some(UlAction::Ae2),
        (UlEvent::AssociateAc, _) => at_associate_ac(state),
        (UlEvent::AssociateRj, _) => at_associate_rj(state),
        (UlEvent::TransportIndication, Sta1) => Some(UlAction::Ae5),
        (UlEvent::AssociateRq, _) => at_associate_rq(state),
        (UlEvent::LocalAccept, Sta3) => Some(UlAction::Ae7),
        (UlEvent::LocalReject, Sta3) => Some(UlAction::Ae8),
        (UlEvent::DataRequest, Sta6) => Some(UlAction::Dt1),
        (UlEvent::DataRequest, Sta8) => Some(UlAction::Ar7),
        (UlEvent::Data, _) => at_data(state),
        (UlEvent::ReleaseRequest, Sta6) => Some(UlAction::Ar1),
        (UlEvent::ReleaseRq, _) => at_release_rq(state),
        (UlEvent::ReleaseRp, _) => at_release_rp(state),
        (UlEvent::ReleaseResponse, Sta8 | Sta12) => Some(UlAction::Ar4),
        (UlEvent::ReleaseResponse, Sta9) => Some(UlAction::Ar9),
        (UlEvent::AbortRequest, _) => at_abort_request(state),
        (UlEvent::Abort, _) => at_abort(state),
        (UlEvent::TransportClosed, _) => at_transport_closed(state),
        (UlEvent::TimerExpired, Sta2 | Sta13) => Some(UlAction::Aa2),
        (UlEvent::Invalid, _) => at_invalid(state),
        _ => None,
    }
}

fn at_associate_ac(state: UlState) -> Option<UlAction>
    ensures { result ≡ action_of (state_number state) (cells events.AssociateAc) }
{
    match state {
        Sta2 => Some(UlAction::Aa1),
        Sta5 => Some(UlAction::Ae3),
        Sta3 | Sta6 | Sta7 | Sta8 | Sta9 | Sta10 | Sta11 | Sta12 => Some(UlAction::Aa8),
        Sta13 => Some(UlAction::Aa6),
        Sta1 | Sta4 => None,
    }
}

fn at_associate_rj(state: UlState) -> Option<UlAction>
    ensures { result ≡ action_of (state_number state) (cells events.AssociateRj) }
{
    match state {
        Sta2 => Some(UlAction::Aa1),
        Sta5 => Some(UlAction::Ae4),
        Sta3 | Sta6 | Sta7 | Sta8 | Sta9 | Sta10 | Sta11 | Sta12 => Some(UlAction::Aa8),
        Sta13 => Some(UlAction::Aa6),
        Sta1 | Sta4 => None,
    }
}

fn at_associate_rq(state: UlState) -> Option<UlAction>
    ensures { result ≡ action_of (state_number state) (cells events.AssociateRq) }
{
    match state {
        Sta2 => Some(UlAction::Ae6),
        Sta3 | Sta5 | Sta6 | Sta7 | Sta8 | Sta9 | Sta10 | Sta11 | Sta12 => Some(UlAction::Aa8),
        Sta13 => Some(UlAction::Aa7),
        Sta1 | Sta4 => None,
    }
}

fn at_data(state: UlState) -> Option<UlAction>
    ensures { result ≡ action_of (state_number state) (cells events.Data) }
{
    match state {
        Sta2 => Some(UlAction::Aa1),
        Sta6 => Some(UlAction::Dt2),
        Sta7 => Some(UlAction::Ar6),
        Sta3 | Sta5 | Sta8 | Sta9 | Sta10 | Sta11 | Sta12 => Some(UlAction::Aa8),
        Sta13 => Some(UlAction::Aa6),
        Sta1 | Sta4 => None,
    }
}

fn at_release_rq(state: UlState) -> Option<UlAction>
    ensures { result ≡ action_of (state_number state) (cells events.ReleaseRq) }
{
    match state {
        Sta2 => Some(UlAction::Aa1),
        Sta6 => Some(UlAction::Ar2),
        Sta7 => Some(UlAction::Ar8),
        Sta3 | Sta5 | Sta8 | Sta9 | Sta10 | Sta11 | Sta12 => Some(UlAction::Aa8),
        Sta13 => Some(UlAction::Aa6),
        Sta1 | Sta4 => None,
    }
}

fn at_release_rp(state: UlState) -> Option<UlAction>
    ensures { result ≡ action_of (state_number state) (cells events.ReleaseRp) }
{
    match state {
        Sta2 => Some(UlAction::Aa1),
        Sta7 | Sta11 => Some(UlAction::Ar3),
        Sta10 => Some(UlAction::Ar10),
        Sta3 | Sta5 | Sta6 | Sta8 | Sta9 | Sta12 => Some(UlAction::Aa8),
        Sta13 => Some(UlAction::Aa6),
        Sta1 | Sta4 => None,
    }
}

fn at_abort_request(state: UlState) -> Option<UlAction>
    ensures { result ≡ action_of (state_number state) (cells events.AbortRequest) }
{
    match state {
        Sta3 | Sta5 | Sta6 | Sta7 | Sta8 | Sta9 | Sta10 | Sta11 | Sta12 => Some(UlAction::Aa1),
        Sta4 => Some(UlAction::Aa2),
        Sta1 | Sta2 | Sta13 => None,
    }
}

fn at_abort(state: UlState) -> Option<UlAction>
    ensures { result ≡ action_of (state_number state) (cells events.Abort) }
{
    match state {
        Sta2 | Sta13 => Some(UlAction::Aa2),
        Sta3 | Sta5 | Sta6 | Sta7 | Sta8 | Sta9 | Sta10 | Sta11 | Sta12 => Some(UlAction::Aa3),
        Sta1 | Sta4 => None,
    }
}

fn at_transport_closed(state: UlState) -> Option<UlAction>
    ensures { result ≡ action_of (state_number state) (cells events.TransportClosed) }
{
    match state {
        Sta1 => None,
        Sta2 => Some(UlAction::Aa5),
        Sta3 | Sta4 | Sta5 | Sta6 | Sta7 | Sta8 | Sta9 | Sta10 | Sta11 | Sta12 => {
            Some(UlAction::Aa4)
        }
        Sta13 => Some(UlAction::Ar5),
    }
}

fn at_invalid(state: UlState) -> Option<UlAction>
    ensures { result ≡ action_of (state_number state) (cells events.Invalid) }
{
    match state {
        Sta2 => Some(UlAction::Aa1),
        Sta3 | Sta5 | Sta6 | Sta7 | Sta8 | Sta9 | Sta10 | Sta11 | Sta12 => Some(UlAction::Aa8),
        Sta13 => Some(UlAction::Aa7),
        Sta1 | Sta4 => None,
    }
}

/// Returns the state after an action.
fn after(action: UlAction, requestor: bool, acceptable: bool) -> UlState
    ensures { result ≡ after requestor acceptable action }
{
    match action {
        UlAction::Ae1 => Sta4,
        UlAction::Ae2 => Sta5,
        UlAction::Ae3 | UlAction::Ae7 | UlAction::Dt1 | UlAction::Dt2 => Sta6,
        UlAction::Ae5 => Sta2,
        UlAction::Ae6 if acceptable => Sta3,
        UlAction::Ar1 | UlAction::Ar6 => Sta7,
        UlAction::Ar2 | UlAction::Ar7 => Sta8,
        UlAction::Ar8 if requestor => Sta9,
        UlAction::Ar8 => Sta10,
        UlAction::Ar9 => Sta11,
        UlAction::Ar10 => Sta12,
        UlAction::Ae4 | UlAction::Ar3 | UlAction::Ar5 => Sta1,
        UlAction::Aa2 | UlAction::Aa3 | UlAction::Aa4 | UlAction::Aa5 => Sta1,
        UlAction::Ae6 | UlAction::Ae8 | UlAction::Ar4 => Sta13,
        UlAction::Aa1 | UlAction::Aa6 | UlAction::Aa7 | UlAction::Aa8 => Sta13,
    }
}
