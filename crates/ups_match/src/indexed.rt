//! The attributes by which steps are looked up.

ghost use Rattle.std.specs.Prelude.{◌≡◌};
ghost use Rattle.ups_match.specs.IndexedKeys.{indexed_keys};

use ups_dataset::Tag;
use ups_dataset::dictionary::{
    PATIENT_ID, PROCEDURE_STEP_STATE, SCHEDULED_PROCEDURE_STEP_PRIORITY,
    SCHEDULED_STATION_NAME_CODE_SEQUENCE, SOP_INSTANCE_UID, WORKLIST_LABEL,
};

/// What of an attribute is looked up.
#[derive(Clone, Copy, Debug, PartialEq, Eq)]
pub enum KeyKind {
    /// Its values: UIDs, or texts with wild cards.
    Value,
    /// The code values of its items.
    Code,
}

/// An attribute by which steps are looked up.
#[derive(Clone, Copy, Debug, PartialEq, Eq)]
pub struct Indexed {
    /// The tag of the attribute.
    pub tag: Tag,
    /// What of it is looked up.
    pub kind: KeyKind,
}

/// The attributes by which steps are looked up, in the order in which those of a query are tried. The start, of which
/// a range is looked up, comes after them.
pub const INDEXED: [Indexed; 6] = [
    Indexed {
        tag: SOP_INSTANCE_UID,
        kind: KeyKind::Value,
    },
    Indexed {
        tag: PATIENT_ID,
        kind: KeyKind::Value,
    },
    Indexed {
        tag: WORKLIST_LABEL,
        kind: KeyKind::Value,
    },
    Indexed {
        tag: SCHEDULED_STATION_NAME_CODE_SEQUENCE,
        kind: KeyKind::Code,
    },
    Indexed {
        tag: PROCEDURE_STEP_STATE,
        kind: KeyKind::Value,
    },
    Indexed {
        tag: SCHEDULED_PROCEDURE_STEP_PRIORITY,
        kind: KeyKind::Value,
    },
];

/// Does nothing at run time: its contract tells a proof that the indexed attributes are those of the definitions, in
/// their order.
pub fn indexed_keys_are_those_defined()
    ensures { INDEXED ≡ indexed_keys }
{}
