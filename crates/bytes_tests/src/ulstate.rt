use fixtures::rows::behind;
use std::fmt::Debug;
use std::test::Fail;
use ups_ulstate::*;

/// The columns of the table.
const STATES: [UlState; 13] = [
    UlState::Sta1,
    UlState::Sta2,
    UlState::Sta3,
    UlState::Sta4,
    UlState::Sta5,
    UlState::Sta6,
    UlState::Sta7,
    UlState::Sta8,
    UlState::Sta9,
    UlState::Sta10,
    UlState::Sta11,
    UlState::Sta12,
    UlState::Sta13,
];

/// The rows of the table.
const EVENTS: [UlEvent; 19] = [
    UlEvent::AssociateRequest,
    UlEvent::TransportConfirmed,
    UlEvent::AssociateAc,
    UlEvent::AssociateRj,
    UlEvent::TransportIndication,
    UlEvent::AssociateRq,
    UlEvent::LocalAccept,
    UlEvent::LocalReject,
    UlEvent::DataRequest,
    UlEvent::Data,
    UlEvent::ReleaseRequest,
    UlEvent::ReleaseRq,
    UlEvent::ReleaseRp,
    UlEvent::ReleaseResponse,
    UlEvent::AbortRequest,
    UlEvent::Abort,
    UlEvent::TransportClosed,
    UlEvent::TimerExpired,
    UlEvent::Invalid,
];

/// The event of each row, with the actions in the states Sta1 to Sta13 (PS3.8 table 9-10).
const ROWS: &str = "\
AssociateRequest:    Ae1 --- --- --- --- --- --- --- --- ---  --- --- ---
TransportConfirmed:  --- --- --- Ae2 --- --- --- --- --- ---  --- --- ---
AssociateAc:         --- Aa1 Aa8 --- Ae3 Aa8 Aa8 Aa8 Aa8 Aa8  Aa8 Aa8 Aa6
AssociateRj:         --- Aa1 Aa8 --- Ae4 Aa8 Aa8 Aa8 Aa8 Aa8  Aa8 Aa8 Aa6
TransportIndication: Ae5 --- --- --- --- --- --- --- --- ---  --- --- ---
AssociateRq:         --- Ae6 Aa8 --- Aa8 Aa8 Aa8 Aa8 Aa8 Aa8  Aa8 Aa8 Aa7
LocalAccept:         --- --- Ae7 --- --- --- --- --- --- ---  --- --- ---
LocalReject:         --- --- Ae8 --- --- --- --- --- --- ---  --- --- ---
DataRequest:         --- --- --- --- --- Dt1 --- Ar7 --- ---  --- --- ---
Data:                --- Aa1 Aa8 --- Aa8 Dt2 Ar6 Aa8 Aa8 Aa8  Aa8 Aa8 Aa6
ReleaseRequest:      --- --- --- --- --- Ar1 --- --- --- ---  --- --- ---
ReleaseRq:           --- Aa1 Aa8 --- Aa8 Ar2 Ar8 Aa8 Aa8 Aa8  Aa8 Aa8 Aa6
ReleaseRp:           --- Aa1 Aa8 --- Aa8 Aa8 Ar3 Aa8 Aa8 Ar10 Ar3 Aa8 Aa6
ReleaseResponse:     --- --- --- --- --- --- --- Ar4 Ar9 ---  --- Ar4 ---
AbortRequest:        --- --- Aa1 Aa2 Aa1 Aa1 Aa1 Aa1 Aa1 Aa1  Aa1 Aa1 ---
Abort:               --- Aa2 Aa3 --- Aa3 Aa3 Aa3 Aa3 Aa3 Aa3  Aa3 Aa3 Aa2
TransportClosed:     --- Aa5 Aa4 Aa4 Aa4 Aa4 Aa4 Aa4 Aa4 Aa4  Aa4 Aa4 Ar5
TimerExpired:        --- Aa2 --- --- --- --- --- --- --- ---  --- --- Aa2
Invalid:             --- Aa1 Aa8 --- Aa8 Aa8 Aa8 Aa8 Aa8 Aa8  Aa8 Aa8 Aa7";

/// Each action with its next state: that of AE-6 if the request is acceptable, and of AR-8 on the side that requested
/// the association (PS3.8 tables 9-6 to 9-9).
const NEXT_STATES: &str = "\
Ae1:Sta4
Ae2:Sta5
Ae3:Sta6
Ae4:Sta1
Ae5:Sta2
Ae6:Sta3
Ae7:Sta6
Ae8:Sta13
Dt1:Sta6
Dt2:Sta6
Ar1:Sta7
Ar2:Sta8
Ar3:Sta1
Ar4:Sta13
Ar5:Sta1
Ar6:Sta7
Ar7:Sta8
Ar8:Sta9
Ar9:Sta11
Ar10:Sta12
Aa1:Sta13
Aa2:Sta1
Aa3:Sta1
Aa4:Sta1
Aa5:Sta1
Aa6:Sta13
Aa7:Sta13
Aa8:Sta13";

/// Returns whether an action or a state has this name.
fn is_named<T: Debug>(rt: &impl AllocGlobal, value: &T, name: &str) -> Result<bool, Fail> {
    let found = format!(in rt.alloc(); "{value:?}")?;
    Ok(found.as_str() == name)
}

/// Returns whether a cell has the action of a text, with its next state, or is empty if that is dashes.
fn is_cell(
    rt: &impl AllocGlobal,
    cell: Option<(UlAction, UlState)>,
    action: &str,
) -> Result<bool, Fail> {
    let Some((found, state)) = cell else {
        return Ok(action == "---");
    };
    Ok(is_named(rt, &found, action)? && is_named(rt, &state, behind(NEXT_STATES, action, ":")?)?)
}

/// Returns the actions of the row of an event.
fn actions_of(rt: &impl AllocGlobal, event: UlEvent) -> Result<&'static str, Fail> {
    let name = format!(in rt.alloc(); "{event:?}")?;
    behind(ROWS, name.as_str(), ":")
}

/// Returns how many cells of a row are those of the standard, up to the first that is not.
fn right_cells(rt: &impl AllocGlobal, event: UlEvent) -> Result<u32, Fail> {
    let actions = actions_of(rt, event)?;
    let mut cells = 0u32;
    for (state, action) in STATES.iter().zip(actions.split_whitespace()) {
        if !is_cell(rt, next(*state, event, true, true), action)? {
            return Ok(cells);
        }
        cells = cells.wrapping_add(1);
    }
    Ok(cells)
}

#[test]
fn each_cell_is_that_of_the_standard(rt: HostRuntime) -> Result<(), Fail> {
    for event in EVENTS {
        assert_eq!(rt; right_cells(&rt, event)?, 13, "at {event:?}");
    }
    Ok(())
}

/// Returns whether a collision ends in the state `collided`, and a request in `requested`.
fn are_answered(requestor: bool, acceptable: bool, collided: UlState, requested: UlState) -> bool {
    let collision = next(UlState::Sta7, UlEvent::ReleaseRq, requestor, acceptable);
    let request = next(UlState::Sta2, UlEvent::AssociateRq, requestor, acceptable);
    collision == Some((UlAction::Ar8, collided)) && request == Some((UlAction::Ae6, requested))
}

/// Returns whether data is taken, and a timer does not expire during an association.
fn are_others_the_same(requestor: bool, acceptable: bool) -> bool {
    let data = next(UlState::Sta6, UlEvent::Data, requestor, acceptable);
    let expired = next(UlState::Sta6, UlEvent::TimerExpired, requestor, acceptable);
    data == Some((UlAction::Dt2, UlState::Sta6)) && expired.is_none()
}

#[test]
fn the_sides_of_a_collision_differ_and_so_do_acceptable_requests(rt: HostRuntime) {
    for (requestor, acceptable, collided, requested) in [
        (false, false, UlState::Sta10, UlState::Sta13),
        (false, true, UlState::Sta10, UlState::Sta3),
        (true, false, UlState::Sta9, UlState::Sta13),
        (true, true, UlState::Sta9, UlState::Sta3),
    ] {
        let is_so = are_answered(requestor, acceptable, collided, requested);
        assert!(rt;
            is_so && are_others_the_same(requestor, acceptable),
            "at {requestor}, {acceptable}"
        );
    }
}
