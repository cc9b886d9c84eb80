//! The numbers of the elements of a command set (PS3.7 annex E.1), all of group 0000.

ghost use Rattle.std.specs.Prelude.{◌≡◌};
ghost use Rattle.ups_dimse.specs.Elements.{command_tag};

use ups_dataset::Tag;

/// Command Group Length, UL.
pub(crate) const GROUP_LENGTH: u16 = 0x0000;
/// Affected SOP Class UID, UI.
pub(crate) const AFFECTED_CLASS: u16 = 0x0002;
/// Requested SOP Class UID, UI.
pub(crate) const REQUESTED_CLASS: u16 = 0x0003;
/// Command Field, US.
pub(crate) const COMMAND_FIELD: u16 = 0x0100;
/// Message ID, US.
pub(crate) const MESSAGE_ID: u16 = 0x0110;
/// Message ID Being Responded To, US.
pub(crate) const RESPONDED_TO: u16 = 0x0120;
/// Priority, US.
pub(crate) const PRIORITY: u16 = 0x0700;
/// Command Data Set Type, US.
pub(crate) const DATA_SET_TYPE: u16 = 0x0800;
/// Status, US.
pub const STATUS: u16 = 0x0900;
/// Affected SOP Instance UID, UI.
pub(crate) const AFFECTED_INSTANCE: u16 = 0x1000;
/// Requested SOP Instance UID, UI.
pub(crate) const REQUESTED_INSTANCE: u16 = 0x1001;
/// Event Type ID, US.
pub(crate) const EVENT_TYPE: u16 = 0x1002;
/// Attribute Identifier List, AT.
pub(crate) const ATTRIBUTES: u16 = 0x1005;
/// Action Type ID, US.
pub(crate) const ACTION_TYPE: u16 = 0x1008;

/// Returns the tag of an element of a command set.
pub(crate) fn command_tag(number: u16) -> Tag
    ensures { result ≡ command_tag number }
{
    Tag {
        group: 0,
        element: number,
    }
}
