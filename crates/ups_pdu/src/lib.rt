//! The upper layer protocol of DICOM: UIDs (PS3.5 section 9), application entity titles, and protocol data units
//! (PS3.8 section 9.3), which are read and written exactly.
#![tactic(auto)]

mod ae;
mod associate;
mod association;
mod beginning;
mod bytes;
mod context;
mod fault;
mod fragment;
mod item;
mod kind;
mod lengths;
mod limits;
mod lists;
mod number;
mod pdu;
mod pdv;
mod put;
mod reading;
mod registered;
mod role;
mod syntax;
mod text;
mod uid;
mod user;
mod writing;

pub use ae::Ae;
pub use associate::{
    AnsweredContext, AssociateAc, AssociateRq, AsynchronousWindow, ContextAnswer, ProposedContext,
    Role, UserInformation,
};
pub use beginning::calling_title;
pub use bytes::Bytes;
pub use fault::PduFault;
pub use kind::{PduKind, body_len};
pub use limits::{MAX_BODY_LENGTH, MAX_DATA_LENGTH, limits_are_those_of_the_profile};
pub use lists::{AnsweredContexts, ProposedContexts, Roles, Uids};
pub use number::{be_u16_at, be_u32_at, le_u16_at, le_u32_at};
pub use pdu::Pdu;
pub use pdv::{Pdv, Pdvs};
pub use reading::{read_data, read_pdu};
pub use registered::RegisteredUid;
pub use syntax::TransferSyntax;
pub use text::{is_padding, without_padding};
pub use uid::Uid;
pub use writing::{fits_where_spelled, pdu_is_unique, short_is_writable, write_pdu};
