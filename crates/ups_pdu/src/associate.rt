//! Association requests and the answers to them (PS3.8 sections 9.3.2 and 9.3.3, annex D; PS3.7 annex D.3.3).

use crate::bytes::Bytes;
use crate::lists::{AnsweredContexts, ProposedContexts, Roles, Uids};
use crate::uid::Uid;
use std::alloc::Allocator;

/// A proposed presentation context (PS3.8 section 9.3.2.2).
#[derive(Drop)]
pub struct ProposedContext<A: Allocator + Copy> {
    /// The presentation context id, which is odd.
    pub id: u8,
    /// The abstract syntax.
    pub abstract_syntax: Uid,
    /// The transfer syntaxes for it, at least one, in the order of the proposer.
    pub transfer_syntaxes: Uids<A>,
}

/// The answer to a presentation context (PS3.8 section 9.3.3.2).
#[derive(Clone, Copy)]
pub enum ContextAnswer {
    /// Accepted (result 0), with the transfer syntax.
    Accepted(Uid),
    /// Refused, with the result, which is not 0.
    Refused(u8),
}

/// An answered presentation context (PS3.8 section 9.3.3.2).
#[derive(Clone, Copy)]
pub struct AnsweredContext {
    /// The presentation context id, which is odd.
    pub id: u8,
    /// The answer.
    pub answer: ContextAnswer,
}

/// The numbers of operations that may be outstanding (PS3.7 annex D.3.3.3).
#[derive(Clone, Copy, Debug, PartialEq, Eq)]
pub struct AsynchronousWindow {
    /// The number of operations invoked.
    pub invoked: u16,
    /// The number of operations performed.
    pub performed: u16,
}

/// The roles for one SOP class (PS3.7 annex D.3.3.4).
#[derive(Clone, Copy)]
pub struct Role {
    /// The SOP class.
    pub sop_class: Uid,
    /// The SCU role: 0 or 1 in PS3.7, but any byte is read.
    pub scu: u8,
    /// The SCP role: 0 or 1 in PS3.7, but any byte is read.
    pub scp: u8,
}

/// The user information (PS3.8 section 9.3.2.3, annex D; PS3.7 annex D.3.3).
#[derive(Drop)]
pub struct UserInformation<A: Allocator + Copy> {
    /// The maximum length of a P-DATA-TF that the sender receives, in bytes, or 0 for no limit (PS3.8 annex D.1). It
    /// is 0 if none is given.
    pub maximum_length: u32,
    /// The implementation class UID (PS3.7 annex D.3.3.2).
    pub implementation_class: Option<Uid>,
    /// The window of asynchronous operations.
    pub asynchronous_window: Option<AsynchronousWindow>,
    /// The roles, in order.
    pub roles: Roles<A>,
    /// The implementation version name (PS3.7 annex D.3.3.2), as its bytes.
    pub implementation_version: Option<Bytes<A>>,
}

/// An A-ASSOCIATE-RQ (PS3.8 section 9.3.2).
#[derive(Drop)]
pub struct AssociateRq<A: Allocator + Copy> {
    /// The protocol version: bit 0 is version 1.
    pub protocol_version: u16,
    /// The called application entity title, as it is encoded.
    pub called: [u8; 16],
    /// The calling application entity title, as it is encoded.
    pub calling: [u8; 16],
    /// The application context name.
    pub application_context: Uid,
    /// The proposed presentation contexts, in order: at least one, with different ids.
    pub contexts: ProposedContexts<A>,
    /// The user information.
    pub user_information: UserInformation<A>,
}

/// An A-ASSOCIATE-AC (PS3.8 section 9.3.3).
#[derive(Drop)]
pub struct AssociateAc<A: Allocator + Copy> {
    /// The protocol version: bit 0 is version 1.
    pub protocol_version: u16,
    /// The called application entity title of the request.
    pub called: [u8; 16],
    /// The calling application entity title of the request.
    pub calling: [u8; 16],
    /// The application context name.
    pub application_context: Uid,
    /// The answered presentation contexts, in order: at least one, with different ids.
    pub contexts: AnsweredContexts<A>,
    /// The user information.
    pub user_information: UserInformation<A>,
}
