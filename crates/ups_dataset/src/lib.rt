//! DICOM data sets (PS3.5): their elements and their bytes, which are read and written exactly.
#![tactic(auto)]

mod building;
mod copying;
pub mod dictionary;
mod fault;
mod head;
pub mod laws;
mod limits;
mod listing;
mod measuring;
mod merging;
mod passing;
mod putting;
mod reading;
mod set;
mod tag;
mod trimming;
mod value_bytes;
mod vr;
mod writing;

pub use dictionary::vr_of;
pub use fault::SetFault;
pub use limits::{MAX_DEPTH, MAX_SHORT_LENGTH, UNDEFINED_LENGTH, limits_are_those_of_the_profile};
pub use reading::read_set;
pub use set::{DataSet, Element, Value};
pub use tag::{
    ITEM, ITEM_DELIMITATION, SEQUENCE_DELIMITATION, Tag, the_marks_are_those_of_the_standard,
};
pub use value_bytes::ValueBytes;
pub use vr::Vr;
pub use writing::write_set;
