//! The association request of a requestor, and what the answer to it leaves.

ghost use Rattle.std.specs.Prelude.{◌≡◌, ◌≤◌, ◌-◌, ◌++◌, ◌==◌, find, length, replicate, IfOk, IfSome, false};
ghost use Rattle.ups_pdu.specs.declared.pdu.Pdu.TheVariants as pdus;
ghost use Rattle.ups_pdu.specs.Fits.{Fits};
ghost use Rattle.ups_assoc.specs.Negotiation.{counted, is_too_small, this_server};
ghost use Rattle.ups_assoc.specs.Contexts.{known_syntax};
ghost use Rattle.ups_session.specs.Proposing.{proposed_id, padded_title, event_context, proposed_information, association_request, syntax_answered, syntax_at, agreement};

use std::alloc::{AllocError, Allocator};
use ups_assoc::version_name;
use ups_pdu::{
    Ae, AnsweredContext, AssociateAc, AssociateRq, ContextAnswer, MAX_DATA_LENGTH, ProposedContext,
    ProposedContexts, RegisteredUid, Role, Roles, TransferSyntax, Uid, Uids, UserInformation,
};

/// The id of the one presentation context that is proposed.
pub(crate) const PROPOSED_ID: u8 = 1;

/// Returns a text followed by spaces.
fn spaced(text: &[u8]) -> [u8; 16]
    requires { length text.now ≤ 16 }
    ensures { result ≡ text.now ++ replicate (16 - length text.now) 32 }
{
    let mut bytes = [b' '; 16];
    for (i, b) in text.iter().enumerate() {
        bytes[i] = *b;
    }
    bytes
}

/// Encodes a title for an association request (PS3.8 section 9.3.2).
fn padded_title(ae: Ae) -> [u8; 16]
    ensures title { result ≡ padded_title ae }
    ensures short { length ae ≤ 16 }
{
    spaced(ae.as_bytes())
}

/// Returns the presentation context over which events are reported.
///
/// Errors: out of memory.
fn event_context<A: Allocator + Copy>(alloc: A) -> Result<ProposedContext<A>, AllocError>
    ensures { IfOk result (λ c. c ≡ event_context) }
{
    let mut syntaxes = Vec::new(alloc);
    syntaxes.push(RegisteredUid::ExplicitVrLittleEndian.uid())?;
    syntaxes.push(RegisteredUid::ImplicitVrLittleEndian.uid())?;
    Ok(ProposedContext {
        id: PROPOSED_ID,
        abstract_syntax: RegisteredUid::UpsEvent.uid(),
        transfer_syntaxes: Uids::from_vec(syntaxes),
    })
}

/// Returns the user information of this requestor, which is the SCP of the events (PS3.7 annexes D.3.3.2 and D.3.3.4).
///
/// Errors: out of memory.
fn proposed_information<A: Allocator + Copy>(alloc: A) -> Result<UserInformation<A>, AllocError>
    ensures { IfOk result (λ u. u ≡ proposed_information this_server) }
{
    let implementation_version = version_name(alloc)?;
    let mut roles = Vec::new(alloc);
    roles.push(Role {
        sop_class: RegisteredUid::UpsEvent.uid(),
        scu: 0,
        scp: 1,
    })?;
    Ok(UserInformation {
        maximum_length: MAX_DATA_LENGTH,
        implementation_class: Some(RegisteredUid::Implementation.uid()),
        asynchronous_window: None,
        roles: Roles::from_vec(roles),
        implementation_version: Some(implementation_version),
    })
}

/// Returns the association request of this application entity to another.
///
/// Errors: out of memory.
#[tactic(auto, unfolding(crate::specs::Proposing::association_request))]
pub(crate) fn association_request<A: Allocator + Copy>(
    alloc: A,
    calling: Ae,
    called: Ae,
) -> Result<AssociateRq<A>, AllocError>
    ensures request { IfOk result (λ rq. rq ≡ association_request calling called) }
    ensures short { (length calling ≤ 16) × (length called ≤ 16) }
{
    let calling = padded_title(calling);
    let called = padded_title(called);
    let mut contexts = Vec::new(alloc);
    contexts.push(event_context(alloc)?)?;
    Ok(AssociateRq {
        protocol_version: 1,
        called,
        calling,
        application_context: RegisteredUid::ApplicationContext.uid(),
        contexts: ProposedContexts::from_vec(contexts),
        user_information: proposed_information(alloc)?,
    })
}

/// Returns the transfer syntax of a UID, if it is one of the two that were proposed.
fn known_syntax(uid: &Uid) -> Option<TransferSyntax>
    ensures { result ≡ known_syntax uid.now }
{
    if uid.as_bytes() == RegisteredUid::ImplicitVrLittleEndian.text() {
        Some(TransferSyntax::Implicit)
    } else if uid.as_bytes() == RegisteredUid::ExplicitVrLittleEndian.text() {
        Some(TransferSyntax::Explicit)
    } else {
        None
    }
}

/// Returns the transfer syntax of an answer to a presentation context, if it accepts one of the two.
fn syntax_answered(answer: ContextAnswer) -> Option<TransferSyntax>
    ensures { result ≡ syntax_answered answer }
{
    match answer {
        ContextAnswer::Accepted(uid) => known_syntax(&uid),
        ContextAnswer::Refused(_) => None,
    }
}

/// Returns the answer to the proposed presentation context.
fn answer_among(contexts: &[AnsweredContext]) -> Option<AnsweredContext>
    ensures { result ≡ find (λ c. c.id == proposed_id) contexts.now }
{
    contexts
        .iter()
        .copied()
        .find(|context| context.id == PROPOSED_ID)
}

/// Returns the transfer syntax that the answers accept for the proposed presentation context.
fn syntax_among(contexts: &[AnsweredContext]) -> Option<TransferSyntax>
    ensures { result ≡ syntax_at (find (λ c. c.id == proposed_id) contexts.now) }
{
    match answer_among(contexts) {
        Some(context) => syntax_answered(context.answer),
        None => None,
    }
}

/// Returns whether a maximum length has no room for a fragment of two bytes.
fn is_too_small(max: u32) -> bool
    ensures { result ≡ is_too_small max }
{
    max > 0 && max < 8
}

/// Returns the maximum length used for a peer, in bytes: 0 sets no limit, and at most 16,384 is used (PS3.8 annex D.1).
pub(crate) fn counted(max: u32) -> u32
    ensures { result ≡ counted max }
{
    if max == 0 || max > MAX_DATA_LENGTH {
        MAX_DATA_LENGTH
    } else {
        max
    }
}

/// Returns the transfer syntax in which events are reported, if the answer accepts one and the peer receives PDUs that
/// have room for a fragment.
pub(crate) fn agreement<A: Allocator + Copy>(ac: &AssociateAc<A>) -> Option<TransferSyntax>
    ensures syntax { result ≡ agreement ac.now }
    ensures roomy { IfSome result (λ _. 8 ≤ counted ac.now.user_information.maximum_length) }
{
    if is_too_small(ac.user_information.maximum_length) {
        return None;
    }
    syntax_among(ac.contexts.as_slice())
}
