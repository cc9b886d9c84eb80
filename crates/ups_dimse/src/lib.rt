//! The commands of DICOM messages (PS3.7), and the exact reading and writing of the command sets that encode them.
#![tactic(auto)]

mod command;
mod elements;
mod fault;
mod limits;
mod message;
mod numbers;
mod reading;
mod tag_list;
mod values;
mod writing;

pub use command::{
    CancelCommand, Command, Operation, OperationResult, RequestCommand, ResponseCommand,
};
pub use elements::HEADER_LEN;
pub use fault::DimseFault;
pub use limits::{MAX_ATTRIBUTES, limits_are_those_of_the_profile};
pub use numbers::STATUS;
pub use reading::{command_is_unique, fault_is_unique, read_command};
pub use tag_list::Tags;
pub use writing::{write_command, write_command_into};
