//! The attributes that the service knows, with their tags and value representations (PS3.6 section 6).

ghost use Rattle.std.specs.Prelude.{◌≡◌, ◌∷◌, [], map};
ghost use Rattle.ups_dataset.specs.Dictionary.{dictionary, vr_in, vr_of};

use crate::tag::Tag;
use crate::vr::Vr;

/// An attribute: its tag and its value representation.
#[derive(Clone, Copy, Debug, PartialEq, Eq)]
pub struct Attribute {
    /// The tag.
    pub tag: Tag,
    /// The value representation.
    pub vr: Vr,
}

/// Specific Character Set
pub const SPECIFIC_CHARACTER_SET: Tag = Tag {
    group: 0x0008,
    element: 0x0005,
};
/// SOP Class UID
pub const SOP_CLASS_UID: Tag = Tag {
    group: 0x0008,
    element: 0x0016,
};
/// SOP Instance UID
pub const SOP_INSTANCE_UID: Tag = Tag {
    group: 0x0008,
    element: 0x0018,
};
/// Accession Number
pub const ACCESSION_NUMBER: Tag = Tag {
    group: 0x0008,
    element: 0x0050,
};
/// Retrieve AE Title
pub const RETRIEVE_AE_TITLE: Tag = Tag {
    group: 0x0008,
    element: 0x0054,
};
/// Referring Physician's Name
pub const REFERRING_PHYSICIAN_NAME: Tag = Tag {
    group: 0x0008,
    element: 0x0090,
};
/// Code Value
pub const CODE_VALUE: Tag = Tag {
    group: 0x0008,
    element: 0x0100,
};
/// Coding Scheme Designator
pub const CODING_SCHEME_DESIGNATOR: Tag = Tag {
    group: 0x0008,
    element: 0x0102,
};
/// Coding Scheme Version
pub const CODING_SCHEME_VERSION: Tag = Tag {
    group: 0x0008,
    element: 0x0103,
};
/// Code Meaning
pub const CODE_MEANING: Tag = Tag {
    group: 0x0008,
    element: 0x0104,
};
/// Referenced SOP Class UID
pub const REFERENCED_SOP_CLASS_UID: Tag = Tag {
    group: 0x0008,
    element: 0x1150,
};
/// Referenced SOP Instance UID
pub const REFERENCED_SOP_INSTANCE_UID: Tag = Tag {
    group: 0x0008,
    element: 0x1155,
};
/// Transaction UID
pub const TRANSACTION_UID: Tag = Tag {
    group: 0x0008,
    element: 0x1195,
};
/// Referenced SOP Sequence
pub const REFERENCED_SOP_SEQUENCE: Tag = Tag {
    group: 0x0008,
    element: 0x1199,
};
/// Patient's Name
pub const PATIENT_NAME: Tag = Tag {
    group: 0x0010,
    element: 0x0010,
};
/// Patient ID
pub const PATIENT_ID: Tag = Tag {
    group: 0x0010,
    element: 0x0020,
};
/// Issuer of Patient ID
pub const ISSUER_OF_PATIENT_ID: Tag = Tag {
    group: 0x0010,
    element: 0x0021,
};
/// Patient's Birth Date
pub const PATIENT_BIRTH_DATE: Tag = Tag {
    group: 0x0010,
    element: 0x0030,
};
/// Patient's Sex
pub const PATIENT_SEX: Tag = Tag {
    group: 0x0010,
    element: 0x0040,
};
/// Study Instance UID
pub const STUDY_INSTANCE_UID: Tag = Tag {
    group: 0x0020,
    element: 0x000d,
};
/// Series Instance UID
pub const SERIES_INSTANCE_UID: Tag = Tag {
    group: 0x0020,
    element: 0x000e,
};
/// Requested Procedure Description
pub const REQUESTED_PROCEDURE_DESCRIPTION: Tag = Tag {
    group: 0x0032,
    element: 0x1060,
};
/// Admission ID
pub const ADMISSION_ID: Tag = Tag {
    group: 0x0038,
    element: 0x0010,
};
/// Requested Procedure ID
pub const REQUESTED_PROCEDURE_ID: Tag = Tag {
    group: 0x0040,
    element: 0x1001,
};
/// Scheduled Procedure Step Start DateTime
pub const SCHEDULED_PROCEDURE_STEP_START_DATE_TIME: Tag = Tag {
    group: 0x0040,
    element: 0x4005,
};
/// Human Performer Code Sequence
pub const HUMAN_PERFORMER_CODE_SEQUENCE: Tag = Tag {
    group: 0x0040,
    element: 0x4009,
};
/// Scheduled Procedure Step Modification DateTime
pub const SCHEDULED_PROCEDURE_STEP_MODIFICATION_DATE_TIME: Tag = Tag {
    group: 0x0040,
    element: 0x4010,
};
/// Expected Completion DateTime
pub const EXPECTED_COMPLETION_DATE_TIME: Tag = Tag {
    group: 0x0040,
    element: 0x4011,
};
/// Scheduled Workitem Code Sequence
pub const SCHEDULED_WORKITEM_CODE_SEQUENCE: Tag = Tag {
    group: 0x0040,
    element: 0x4018,
};
/// Performed Workitem Code Sequence
pub const PERFORMED_WORKITEM_CODE_SEQUENCE: Tag = Tag {
    group: 0x0040,
    element: 0x4019,
};
/// Input Information Sequence
pub const INPUT_INFORMATION_SEQUENCE: Tag = Tag {
    group: 0x0040,
    element: 0x4021,
};
/// Scheduled Station Name Code Sequence
pub const SCHEDULED_STATION_NAME_CODE_SEQUENCE: Tag = Tag {
    group: 0x0040,
    element: 0x4025,
};
/// Scheduled Station Class Code Sequence
pub const SCHEDULED_STATION_CLASS_CODE_SEQUENCE: Tag = Tag {
    group: 0x0040,
    element: 0x4026,
};
/// Scheduled Station Geographic Location Code Sequence
pub const SCHEDULED_STATION_GEOGRAPHIC_LOCATION_CODE_SEQUENCE: Tag = Tag {
    group: 0x0040,
    element: 0x4027,
};
/// Performed Station Name Code Sequence
pub const PERFORMED_STATION_NAME_CODE_SEQUENCE: Tag = Tag {
    group: 0x0040,
    element: 0x4028,
};
/// Performed Station Class Code Sequence
pub const PERFORMED_STATION_CLASS_CODE_SEQUENCE: Tag = Tag {
    group: 0x0040,
    element: 0x4029,
};
/// Performed Station Geographic Location Code Sequence
pub const PERFORMED_STATION_GEOGRAPHIC_LOCATION_CODE_SEQUENCE: Tag = Tag {
    group: 0x0040,
    element: 0x4030,
};
/// Output Information Sequence
pub const OUTPUT_INFORMATION_SEQUENCE: Tag = Tag {
    group: 0x0040,
    element: 0x4033,
};
/// Scheduled Human Performers Sequence
pub const SCHEDULED_HUMAN_PERFORMERS_SEQUENCE: Tag = Tag {
    group: 0x0040,
    element: 0x4034,
};
/// Actual Human Performers Sequence
pub const ACTUAL_HUMAN_PERFORMERS_SEQUENCE: Tag = Tag {
    group: 0x0040,
    element: 0x4035,
};
/// Human Performer's Organization
pub const HUMAN_PERFORMER_ORGANIZATION: Tag = Tag {
    group: 0x0040,
    element: 0x4036,
};
/// Human Performer's Name
pub const HUMAN_PERFORMER_NAME: Tag = Tag {
    group: 0x0040,
    element: 0x4037,
};
/// Input Readiness State
pub const INPUT_READINESS_STATE: Tag = Tag {
    group: 0x0040,
    element: 0x4041,
};
/// Performed Procedure Step Start DateTime
pub const PERFORMED_PROCEDURE_STEP_START_DATE_TIME: Tag = Tag {
    group: 0x0040,
    element: 0x4050,
};
/// Performed Procedure Step End DateTime
pub const PERFORMED_PROCEDURE_STEP_END_DATE_TIME: Tag = Tag {
    group: 0x0040,
    element: 0x4051,
};
/// Procedure Step Cancellation DateTime
pub const PROCEDURE_STEP_CANCELLATION_DATE_TIME: Tag = Tag {
    group: 0x0040,
    element: 0x4052,
};
/// Referenced Request Sequence
pub const REFERENCED_REQUEST_SEQUENCE: Tag = Tag {
    group: 0x0040,
    element: 0xa370,
};
/// Type of Instances
pub const TYPE_OF_INSTANCES: Tag = Tag {
    group: 0x0040,
    element: 0xe020,
};
/// Procedure Step State
pub const PROCEDURE_STEP_STATE: Tag = Tag {
    group: 0x0074,
    element: 0x1000,
};
/// Procedure Step Progress Information Sequence
pub const PROCEDURE_STEP_PROGRESS_INFORMATION_SEQUENCE: Tag = Tag {
    group: 0x0074,
    element: 0x1002,
};
/// Procedure Step Progress
pub const PROCEDURE_STEP_PROGRESS: Tag = Tag {
    group: 0x0074,
    element: 0x1004,
};
/// Procedure Step Progress Description
pub const PROCEDURE_STEP_PROGRESS_DESCRIPTION: Tag = Tag {
    group: 0x0074,
    element: 0x1006,
};
/// Procedure Step Communications URI Sequence
pub const PROCEDURE_STEP_COMMUNICATIONS_URI_SEQUENCE: Tag = Tag {
    group: 0x0074,
    element: 0x1008,
};
/// Contact URI
pub const CONTACT_URI: Tag = Tag {
    group: 0x0074,
    element: 0x100a,
};
/// Contact Display Name
pub const CONTACT_DISPLAY_NAME: Tag = Tag {
    group: 0x0074,
    element: 0x100c,
};
/// Procedure Step Discontinuation Reason Code Sequence
pub const PROCEDURE_STEP_DISCONTINUATION_REASON_CODE_SEQUENCE: Tag = Tag {
    group: 0x0074,
    element: 0x100e,
};
/// Scheduled Procedure Step Priority
pub const SCHEDULED_PROCEDURE_STEP_PRIORITY: Tag = Tag {
    group: 0x0074,
    element: 0x1200,
};
/// Worklist Label
pub const WORKLIST_LABEL: Tag = Tag {
    group: 0x0074,
    element: 0x1202,
};
/// Procedure Step Label
pub const PROCEDURE_STEP_LABEL: Tag = Tag {
    group: 0x0074,
    element: 0x1204,
};
/// Scheduled Processing Parameters Sequence
pub const SCHEDULED_PROCESSING_PARAMETERS_SEQUENCE: Tag = Tag {
    group: 0x0074,
    element: 0x1210,
};
/// Performed Processing Parameters Sequence
pub const PERFORMED_PROCESSING_PARAMETERS_SEQUENCE: Tag = Tag {
    group: 0x0074,
    element: 0x1212,
};
/// Unified Procedure Step Performed Procedure Sequence
pub const UNIFIED_PROCEDURE_STEP_PERFORMED_PROCEDURE_SEQUENCE: Tag = Tag {
    group: 0x0074,
    element: 0x1216,
};
/// Replaced Procedure Step Sequence
pub const REPLACED_PROCEDURE_STEP_SEQUENCE: Tag = Tag {
    group: 0x0074,
    element: 0x1224,
};
/// Deletion Lock
pub const DELETION_LOCK: Tag = Tag {
    group: 0x0074,
    element: 0x1230,
};
/// Receiving AE
pub const RECEIVING_AE: Tag = Tag {
    group: 0x0074,
    element: 0x1234,
};
/// Requesting AE
pub const REQUESTING_AE: Tag = Tag {
    group: 0x0074,
    element: 0x1236,
};
/// Reason for Cancellation
pub const REASON_FOR_CANCELLATION: Tag = Tag {
    group: 0x0074,
    element: 0x1238,
};

/// The dictionary: each attribute that this program knows, in ascending order of tags.
pub const DICTIONARY: [Attribute; 67] = [
    Attribute {
        tag: SPECIFIC_CHARACTER_SET,
        vr: Vr::Cs,
    },
    Attribute {
        tag: SOP_CLASS_UID,
        vr: Vr::Ui,
    },
    Attribute {
        tag: SOP_INSTANCE_UID,
        vr: Vr::Ui,
    },
    Attribute {
        tag: ACCESSION_NUMBER,
        vr: Vr::Sh,
    },
    Attribute {
        tag: RETRIEVE_AE_TITLE,
        vr: Vr::Ae,
    },
    Attribute {
        tag: REFERRING_PHYSICIAN_NAME,
        vr: Vr::Pn,
    },
    Attribute {
        tag: CODE_VALUE,
        vr: Vr::Sh,
    },
    Attribute {
        tag: CODING_SCHEME_DESIGNATOR,
        vr: Vr::Sh,
    },
    Attribute {
        tag: CODING_SCHEME_VERSION,
        vr: Vr::Sh,
    },
    Attribute {
        tag: CODE_MEANING,
        vr: Vr::Lo,
    },
    Attribute {
        tag: REFERENCED_SOP_CLASS_UID,
        vr: Vr::Ui,
    },
    Attribute {
        tag: REFERENCED_SOP_INSTANCE_UID,
        vr: Vr::Ui,
    },
    Attribute {
        tag: TRANSACTION_UID,
        vr: Vr::Ui,
    },
    Attribute {
        tag: REFERENCED_SOP_SEQUENCE,
        vr: Vr::Sq,
    },
    Attribute {
        tag: PATIENT_NAME,
        vr: Vr::Pn,
    },
    Attribute {
        tag: PATIENT_ID,
        vr: Vr::Lo,
    },
    Attribute {
        tag: ISSUER_OF_PATIENT_ID,
        vr: Vr::Lo,
    },
    Attribute {
        tag: PATIENT_BIRTH_DATE,
        vr: Vr::Da,
    },
    Attribute {
        tag: PATIENT_SEX,
        vr: Vr::Cs,
    },
    Attribute {
        tag: STUDY_INSTANCE_UID,
        vr: Vr::Ui,
    },
    Attribute {
        tag: SERIES_INSTANCE_UID,
        vr: Vr::Ui,
    },
    Attribute {
        tag: REQUESTED_PROCEDURE_DESCRIPTION,
        vr: Vr::Lo,
    },
    Attribute {
        tag: ADMISSION_ID,
        vr: Vr::Lo,
    },
    Attribute {
        tag: REQUESTED_PROCEDURE_ID,
        vr: Vr::Sh,
    },
    Attribute {
        tag: SCHEDULED_PROCEDURE_STEP_START_DATE_TIME,
        vr: Vr::Dt,
    },
    Attribute {
        tag: HUMAN_PERFORMER_CODE_SEQUENCE,
        vr: Vr::Sq,
    },
    Attribute {
        tag: SCHEDULED_PROCEDURE_STEP_MODIFICATION_DATE_TIME,
        vr: Vr::Dt,
    },
    Attribute {
        tag: EXPECTED_COMPLETION_DATE_TIME,
        vr: Vr::Dt,
    },
    Attribute {
        tag: SCHEDULED_WORKITEM_CODE_SEQUENCE,
        vr: Vr::Sq,
    },
    Attribute {
        tag: PERFORMED_WORKITEM_CODE_SEQUENCE,
        vr: Vr::Sq,
    },
    Attribute {
        tag: INPUT_INFORMATION_SEQUENCE,
        vr: Vr::Sq,
    },
    Attribute {
        tag: SCHEDULED_STATION_NAME_CODE_SEQUENCE,
        vr: Vr::Sq,
    },
    Attribute {
        tag: SCHEDULED_STATION_CLASS_CODE_SEQUENCE,
        vr: Vr::Sq,
    },
    Attribute {
        tag: SCHEDULED_STATION_GEOGRAPHIC_LOCATION_CODE_SEQUENCE,
        vr: Vr::Sq,
    },
    Attribute {
        tag: PERFORMED_STATION_NAME_CODE_SEQUENCE,
        vr: Vr::Sq,
    },
    Attribute {
        tag: PERFORMED_STATION_CLASS_CODE_SEQUENCE,
        vr: Vr::Sq,
    },
    Attribute {
        tag: PERFORMED_STATION_GEOGRAPHIC_LOCATION_CODE_SEQUENCE,
        vr: Vr::Sq,
    },
    Attribute {
        tag: OUTPUT_INFORMATION_SEQUENCE,
        vr: Vr::Sq,
    },
    Attribute {
        tag: SCHEDULED_HUMAN_PERFORMERS_SEQUENCE,
        vr: Vr::Sq,
    },
    Attribute {
        tag: ACTUAL_HUMAN_PERFORMERS_SEQUENCE,
        vr: Vr::Sq,
    },
    Attribute {
        tag: HUMAN_PERFORMER_ORGANIZATION,
        vr: Vr::Lo,
    },
    Attribute {
        tag: HUMAN_PERFORMER_NAME,
        vr: Vr::Pn,
    },
    Attribute {
        tag: INPUT_READINESS_STATE,
        vr: Vr::Cs,
    },
    Attribute {
        tag: PERFORMED_PROCEDURE_STEP_START_DATE_TIME,
        vr: Vr::Dt,
    },
    Attribute {
        tag: PERFORMED_PROCEDURE_STEP_END_DATE_TIME,
        vr: Vr::Dt,
    },
    Attribute {
        tag: PROCEDURE_STEP_CANCELLATION_DATE_TIME,
        vr: Vr::Dt,
    },
    Attribute {
        tag: REFERENCED_REQUEST_SEQUENCE,
        vr: Vr::Sq,
    },
    Attribute {
        tag: TYPE_OF_INSTANCES,
        vr: Vr::Cs,
    },
    Attribute {
        tag: PROCEDURE_STEP_STATE,
        vr: Vr::Cs,
    },
    Attribute {
        tag: PROCEDURE_STEP_PROGRESS_INFORMATION_SEQUENCE,
        vr: Vr::Sq,
    },
    Attribute {
        tag: PROCEDURE_STEP_PROGRESS,
        vr: Vr::Ds,
    },
    Attribute {
        tag: PROCEDURE_STEP_PROGRESS_DESCRIPTION,
        vr: Vr::St,
    },
    Attribute {
        tag: PROCEDURE_STEP_COMMUNICATIONS_URI_SEQUENCE,
        vr: Vr::Sq,
    },
    Attribute {
        tag: CONTACT_URI,
        vr: Vr::Ur,
    },
    Attribute {
        tag: CONTACT_DISPLAY_NAME,
        vr: Vr::Lo,
    },
    Attribute {
        tag: PROCEDURE_STEP_DISCONTINUATION_REASON_CODE_SEQUENCE,
        vr: Vr::Sq,
    },
    Attribute {
        tag: SCHEDULED_PROCEDURE_STEP_PRIORITY,
        vr: Vr::Cs,
    },
    Attribute {
        tag: WORKLIST_LABEL,
        vr: Vr::Lo,
    },
    Attribute {
        tag: PROCEDURE_STEP_LABEL,
        vr: Vr::Lo,
    },
    Attribute {
        tag: SCHEDULED_PROCESSING_PARAMETERS_SEQUENCE,
        vr: Vr::Sq,
    },
    Attribute {
        tag: PERFORMED_PROCESSING_PARAMETERS_SEQUENCE,
        vr: Vr::Sq,
    },
    Attribute {
        tag: UNIFIED_PROCEDURE_STEP_PERFORMED_PROCEDURE_SEQUENCE,
        vr: Vr::Sq,
    },
    Attribute {
        tag: REPLACED_PROCEDURE_STEP_SEQUENCE,
        vr: Vr::Sq,
    },
    Attribute {
        tag: DELETION_LOCK,
        vr: Vr::Lo,
    },
    Attribute {
        tag: RECEIVING_AE,
        vr: Vr::Ae,
    },
    Attribute {
        tag: REQUESTING_AE,
        vr: Vr::Ae,
    },
    Attribute {
        tag: REASON_FOR_CANCELLATION,
        vr: Vr::Lt,
    },
];

/// Returns the VR of a tag in a table, or Unknown if it is not there.
fn vr_in(attributes: &[Attribute], tag: Tag) -> Vr
    ensures { result ≡ vr_in attributes.now tag }
{
    for attribute in attributes {
        if attribute.tag == tag {
            return attribute.vr;
        }
    }
    Vr::Un
}

/// Returns the VR of a tag in the dictionary, or Unknown if it is not there.
pub fn vr_of(tag: Tag) -> Vr
    ensures { result ≡ vr_of tag }
{
    vr_in(&DICTIONARY, tag)
}

/// Does nothing at run time: its contract tells a proof that the tags and the value representations are those of
/// PS3.6 section 6.
pub fn the_dictionary_is_that_of_the_standard()
    ensures attributes { DICTIONARY ≡ dictionary }
    ensures tags { SPECIFIC_CHARACTER_SET ∷ SOP_CLASS_UID ∷ SOP_INSTANCE_UID ∷ ACCESSION_NUMBER ∷
        RETRIEVE_AE_TITLE ∷ REFERRING_PHYSICIAN_NAME ∷ CODE_VALUE ∷ CODING_SCHEME_DESIGNATOR ∷
        CODING_SCHEME_VERSION ∷ CODE_MEANING ∷ REFERENCED_SOP_CLASS_UID ∷
        REFERENCED_SOP_INSTANCE_UID ∷ TRANSACTION_UID ∷ REFERENCED_SOP_SEQUENCE ∷ PATIENT_NAME ∷
        PATIENT_ID ∷ ISSUER_OF_PATIENT_ID ∷ PATIENT_BIRTH_DATE ∷ PATIENT_SEX ∷ STUDY_INSTANCE_UID ∷
        SERIES_INSTANCE_UID ∷ REQUESTED_PROCEDURE_DESCRIPTION ∷ ADMISSION_ID ∷
        REQUESTED_PROCEDURE_ID ∷ SCHEDULED_PROCEDURE_STEP_START_DATE_TIME ∷
        HUMAN_PERFORMER_CODE_SEQUENCE ∷ SCHEDULED_PROCEDURE_STEP_MODIFICATION_DATE_TIME ∷
        EXPECTED_COMPLETION_DATE_TIME ∷ SCHEDULED_WORKITEM_CODE_SEQUENCE ∷
        PERFORMED_WORKITEM_CODE_SEQUENCE ∷ INPUT_INFORMATION_SEQUENCE ∷
        SCHEDULED_STATION_NAME_CODE_SEQUENCE ∷ SCHEDULED_STATION_CLASS_CODE_SEQUENCE ∷
        SCHEDULED_STATION_GEOGRAPHIC_LOCATION_CODE_SEQUENCE ∷
        PERFORMED_STATION_NAME_CODE_SEQUENCE ∷ PERFORMED_STATION_CLASS_CODE_SEQUENCE ∷
        PERFORMED_STATION_GEOGRAPHIC_LOCATION_CODE_SEQUENCE ∷ OUTPUT_INFORMATION_SEQUENCE ∷
        SCHEDULED_HUMAN_PERFORMERS_SEQUENCE ∷ ACTUAL_HUMAN_PERFORMERS_SEQUENCE ∷
        HUMAN_PERFORMER_ORGANIZATION ∷ HUMAN_PERFORMER_NAME ∷ INPUT_READINESS_STATE ∷
        PERFORMED_PROCEDURE_STEP_START_DATE_TIME ∷ PERFORMED_PROCEDURE_STEP_END_DATE_TIME ∷
        PROCEDURE_STEP_CANCELLATION_DATE_TIME ∷ REFERENCED_REQUEST_SEQUENCE ∷ TYPE_OF_INSTANCES ∷
        PROCEDURE_STEP_STATE ∷ PROCEDURE_STEP_PROGRESS_INFORMATION_SEQUENCE ∷
        PROCEDURE_STEP_PROGRESS ∷ PROCEDURE_STEP_PROGRESS_DESCRIPTION ∷
        PROCEDURE_STEP_COMMUNICATIONS_URI_SEQUENCE ∷ CONTACT_URI ∷ CONTACT_DISPLAY_NAME ∷
        PROCEDURE_STEP_DISCONTINUATION_REASON_CODE_SEQUENCE ∷ SCHEDULED_PROCEDURE_STEP_PRIORITY ∷
        WORKLIST_LABEL ∷ PROCEDURE_STEP_LABEL ∷ SCHEDULED_PROCESSING_PARAMETERS_SEQUENCE ∷
        PERFORMED_PROCESSING_PARAMETERS_SEQUENCE ∷
        UNIFIED_PROCEDURE_STEP_PERFORMED_PROCEDURE_SEQUENCE ∷ REPLACED_PROCEDURE_STEP_SEQUENCE ∷
        DELETION_LOCK ∷ RECEIVING_AE ∷ REQUESTING_AE ∷ REASON_FOR_CANCELLATION ∷ []
        ≡ map (λ a. a.tag) dictionary }
{}
