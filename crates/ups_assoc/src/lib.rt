//! DICOM associations (PS3.8): answering association requests, assembling messages from the fragments in PDUs, and
//! cutting messages into such fragments.
#![tactic(auto)]

mod assembling;
mod cutting;
mod fault;
mod limits;
mod message;
mod negotiating;
mod sop_class;
mod walking;

pub use assembling::{Assembler, every_cut_gives_its_messages, every_message_is_of_its_fragments};
pub use cutting::{a_cut_message_is_whole_again, cut, put_fragment, room};
pub use fault::AssocFault;
pub use limits::{LONGEST_MESSAGE, limits_are_those_of_the_profile};
pub use message::RawMessage;
pub use negotiating::{
    Acceptance, AcceptedContext, AcceptedContexts, Config, Outcome, Rejection, negotiate,
    version_name,
};
pub use sop_class::SopClass;
pub use walking::{data_follows, the_first_data_set_type_decides};
