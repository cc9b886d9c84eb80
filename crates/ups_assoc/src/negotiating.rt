//! Answering association requests (PS3.8 sections 7.1, 9.3.2 to 9.3.4; PS3.7 annex D.3.3).

ghost use Rattle.std.specs.Prelude.{◌≡◌, ◌<◌, ◌++◌, [], ◌∷◌, List, ℕ, IfOk, IfErr, OnOk, OnErr, map, option_to_list};
ghost use Rattle.std.specs.List.{flat_map, AllByRecursion};
ghost use Rattle.ups_pdu.specs.declared.pdu.Pdu.TheVariants.{AssociateRq as RequestPdu};
ghost use Rattle.ups_pdu.specs.Spelling.{SpellsPdu};
ghost use Rattle.ups_assoc.specs.declared.fault.AssocFault.TheVariants.{Memory};
ghost use Rattle.ups_assoc.specs.declared.negotiating.Outcome.TheVariants.{Accept};
ghost use Rattle.ups_assoc.specs.Titles.{title, is_this_title};
ghost use Rattle.ups_assoc.specs.Contexts.{known_syntax, first_syntax, syntax_uid, answer_of, context_answer, answered, context_of, accepted};
ghost use Rattle.ups_assoc.specs.Negotiation.{number_result, number_source, number_reason, has_version_1, is_dicom, counted, is_too_small, version_name, this_server, acceptance, outcome, IsWritable};

use crate::fault::AssocFault;
use crate::sop_class::SopClass;
use std::alloc::{AllocError, Allocator};
use std::marker::Model;
use ups_pdu::{
    Ae, AnsweredContext, AnsweredContexts, AssociateAc, AssociateRq, Bytes, ContextAnswer,
    MAX_DATA_LENGTH, ProposedContext, RegisteredUid, Roles, TransferSyntax, Uid, UserInformation,
};

/// The result for a presentation context whose abstract syntax is not supported (PS3.8 section 9.3.3.2).
const ABSTRACT_SYNTAX_NOT_SUPPORTED: u8 = 3;

/// The result for a presentation context with no supported transfer syntax (PS3.8 section 9.3.3.2).
const TRANSFER_SYNTAXES_NOT_SUPPORTED: u8 = 4;

/// The configuration of a session of this application entity.
#[derive(Clone, Copy)]
pub struct Config {
    /// The title of this application entity.
    pub ae: Ae,
    /// The offset of local time from UTC in minutes, -720 to 840, positive to the east.
    pub offset: i16,
}

/// An accepted presentation context (PS3.8 section 9.3.3.2).
#[derive(Clone, Copy, Debug, PartialEq, Eq)]
pub struct AcceptedContext {
    /// The presentation context id.
    pub id: u8,
    /// The SOP class that is its abstract syntax.
    pub sop_class: SopClass,
    /// The transfer syntax of its data sets.
    pub transfer_syntax: TransferSyntax,
}

/// Accepted presentation contexts, in order. Contracts see them as a list.
#[derive(Drop)]
pub struct AcceptedContexts<A: Allocator + Copy> {
    contexts: Vec<AcceptedContext, A>,
}

impl<A: Allocator + Copy> Model for AcceptedContexts<A> {
    ghost use Rattle.std.specs.Prelude.{List};
    ghost use Rattle.ups_assoc.specs.declared.negotiating.AcceptedContext.{AcceptedContext};

    ghost Value = { List AcceptedContext };

    ghost view = { λ l. l.contexts.items };
}

impl<A: Allocator + Copy> AcceptedContexts<A> {
    /// Returns a list of one presentation context.
    ///
    /// # Errors
    ///
    /// If memory runs out.
    pub fn of(alloc: A, context: AcceptedContext) -> Result<AcceptedContexts<A>, AllocError>
        ensures { IfOk result (λ c. c ≡ context ∷ []) }
    {
        let mut contexts = Vec::new(alloc);
        contexts.push(context)?;
        Ok(AcceptedContexts { contexts })
    }

    /// Returns the list as a slice.
    pub fn as_slice(&self) -> &[AcceptedContext]
        ensures { result.now ≡ self.now }
    {
        self.contexts.as_slice()
    }
}

/// An accepted association.
#[derive(Drop)]
pub struct Acceptance<A: Allocator + Copy> {
    /// The answer to the request.
    pub ac: AssociateAc<A>,
    /// The title of the calling application entity.
    pub ae: Ae,
    /// The accepted presentation contexts, in the order of the request.
    pub contexts: AcceptedContexts<A>,
    /// The maximum length of a P-DATA-TF that the peer receives, in bytes: at most 16,384, also if it has no limit.
    pub max: u32,
}

/// The reason why an association is rejected (PS3.8 section 9.3.4).
#[derive(Clone, Copy, Debug, PartialEq, Eq)]
pub enum Rejection {
    /// Version 1 of the protocol is not among those that the request names.
    ProtocolVersionNotSupported,
    /// The application context is not that of DICOM.
    ApplicationContextNotSupported,
    /// The called title is not that of this application entity.
    CalledAeNotRecognized,
    /// The calling title is blank or malformed.
    CallingAeNotRecognized,
    /// The maximum length of a P-DATA-TF that the peer receives, 1 to 7 bytes, has no room for a fragment of two
    /// bytes.
    NoReason,
}

impl Rejection {
    /// Returns the result: always 1, rejected permanently.
    pub fn result(self) -> u8
        ensures { result ≡ number_result self }
    {
        1
    }

    /// Returns the source: 1, the service user, or 2, the service provider (ACSE related function).
    pub fn source(self) -> u8
        ensures { result ≡ number_source self }
    {
        match self {
            Rejection::ProtocolVersionNotSupported => 2,
            _ => 1,
        }
    }

    /// Returns the reason, which has a meaning of its own for each source.
    pub fn reason(self) -> u8
        ensures { result ≡ number_reason self }
    {
        match self {
            Rejection::ProtocolVersionNotSupported => 2,
            Rejection::ApplicationContextNotSupported => 2,
            Rejection::CalledAeNotRecognized => 7,
            Rejection::CallingAeNotRecognized => 3,
            Rejection::NoReason => 1,
        }
    }
}

/// The answer to an association request.
#[derive(Drop)]
pub enum Outcome<A: Allocator + Copy> {
    /// The association is accepted.
    Accept(Acceptance<A>),
    /// The association is rejected.
    Reject(Rejection),
}

/// Returns whether version 1 is among the versions of the protocol, each of which is a bit.
fn has_version_1(versions: u16) -> bool
    ensures { result ≡ has_version_1 versions }
{
    versions % 2 == 1
}

/// Returns whether the application context is that of DICOM (PS3.8 annex A.2.1).
fn is_dicom(application_context: &Uid) -> bool
    ensures { result ≡ is_dicom application_context.now }
{
    application_context.as_bytes() == RegisteredUid::ApplicationContext.text()
}

/// Reads a title field of an association request, or returns None if it encodes no title.
fn title_of(bytes: &[u8]) -> Option<Ae>
    ensures { result ≡ title bytes.now }
{
    Ae::of(bytes)
}

/// Returns whether a title field of an association request is the title of this application entity.
fn is_title(ae: Ae, bytes: &[u8]) -> bool
    ensures { result ≡ is_this_title ae bytes.now }
{
    match title_of(bytes) {
        Some(called) => called == ae,
        None => false,
    }
}

/// Returns the transfer syntax with this UID, if it is one that is read and written.
fn syntax_of(uid: &Uid) -> Option<TransferSyntax>
    ensures { result ≡ known_syntax uid.now }
{
    if uid.as_bytes() == RegisteredUid::ImplicitVrLittleEndian.text() {
        Some(TransferSyntax::Implicit)
    } else if uid.as_bytes() == RegisteredUid::ExplicitVrLittleEndian.text() {
        Some(TransferSyntax::Explicit)
    } else {
        None
    }
}

/// Returns the first transfer syntax among the UIDs that is read and written.
fn first_syntax(uids: &[Uid]) -> Option<TransferSyntax>
    ensures { result ≡ first_syntax uids.now }
{
    for uid in uids {
        if let Some(syntax) = syntax_of(uid) {
            return Some(syntax);
        }
    }
    None
}

fn syntax_uid(syntax: TransferSyntax) -> Uid
    ensures { result ≡ syntax_uid syntax }
{
    match syntax {
        TransferSyntax::Implicit => RegisteredUid::ImplicitVrLittleEndian.uid(),
        TransferSyntax::Explicit => RegisteredUid::ExplicitVrLittleEndian.uid(),
    }
}

/// Returns the answer to a presentation context, given its SOP class and transfer syntax if they are supported.
fn answer_of(sop_class: Option<SopClass>, transfer_syntax: Option<TransferSyntax>) -> ContextAnswer
    ensures { result ≡ answer_of sop_class transfer_syntax }
{
    match (sop_class, transfer_syntax) {
        (None, _) => ContextAnswer::Refused(ABSTRACT_SYNTAX_NOT_SUPPORTED),
        (Some(_), None) => ContextAnswer::Refused(TRANSFER_SYNTAXES_NOT_SUPPORTED),
        (Some(_), Some(syntax)) => ContextAnswer::Accepted(syntax_uid(syntax)),
    }
}

/// Returns the answer to a proposed presentation context.
#[tactic(auto, unfolding(crate::specs::Contexts::context_answer))]
fn context_answer<A: Allocator + Copy>(proposed: &ProposedContext<A>) -> ContextAnswer
    ensures { result ≡ context_answer proposed.now }
{
    answer_of(
        SopClass::of(&proposed.abstract_syntax),
        first_syntax(proposed.transfer_syntaxes.as_slice()),
    )
}

/// Returns the accepted presentation context with this id, if there are a SOP class and a transfer syntax.
fn context_of(
    id: u8,
    sop_class: Option<SopClass>,
    transfer_syntax: Option<TransferSyntax>,
) -> Option<AcceptedContext>
    ensures { result ≡ context_of id sop_class transfer_syntax }
{
    match (sop_class, transfer_syntax) {
        (Some(sop_class), Some(transfer_syntax)) => Some(AcceptedContext {
            id,
            sop_class,
            transfer_syntax,
        }),
        _ => None,
    }
}

/// Returns the accepted presentation context for a proposed one, if it is accepted.
#[tactic(auto, unfolding(crate::specs::Contexts::accepted))]
fn accepted<A: Allocator + Copy>(proposed: &ProposedContext<A>) -> Option<AcceptedContext>
    ensures { result ≡ accepted proposed.now }
{
    context_of(
        proposed.id,
        SopClass::of(&proposed.abstract_syntax),
        first_syntax(proposed.transfer_syntaxes.as_slice()),
    )
}

/// Returns an answer to the presentation context with this id.
fn answer_at(id: u8, answer: ContextAnswer) -> AnsweredContext
    ensures answer { result ≡ record { id = id; answer = answer } }
    ensures small { result.id < 256 }
{
    AnsweredContext { id, answer }
}

/// Returns the answers to the proposed presentation contexts.
///
/// Errors: lack of memory.
fn answers_to<A: Allocator + Copy>(
    alloc: A,
    proposed: &[ProposedContext<A>],
) -> Result<AnsweredContexts<A>, AllocError>
    ensures answers { IfOk result (λ l. l ≡ map answered proposed.now) }
    ensures ids { IfOk result (AllByRecursion (λ c. c.id < 256)) }
{
    let mut answers = Vec::new(alloc);
    for context in proposed {
        answers.push(answer_at(context.id, context_answer(context)))?;
    }
    Ok(AnsweredContexts::from_vec(answers))
}

/// Appends an accepted presentation context, if there is one.
///
/// Errors: lack of memory.
fn put_accepted<A: Allocator + Copy>(
    contexts: &mut Vec<AcceptedContext, A>,
    context: Option<AcceptedContext>,
) -> Result<(), AllocError>
    ensures { OnOk result (contexts.new.items ≡ contexts.old.items ++ option_to_list context) }
{
    if let Some(context) = context {
        contexts.push(context)?;
    }
    Ok(())
}

/// Returns the presentation contexts that are accepted among the proposed ones.
///
/// Errors: lack of memory.
fn accepted_of<A: Allocator + Copy>(
    alloc: A,
    proposed: &[ProposedContext<A>],
) -> Result<AcceptedContexts<A>, AllocError>
    ensures { IfOk result (λ l. l ≡ flat_map (λ c. option_to_list (accepted c)) proposed.now) }
{
    let mut contexts = Vec::new(alloc);
    for context in proposed {
        put_accepted(&mut contexts, accepted(context))?;
    }
    Ok(AcceptedContexts { contexts })
}

/// Returns the maximum length to use for a peer that announces `max`: at most 16,384, also if `max` is 0, for no
/// limit.
pub(crate) fn counted(max: u32) -> u32
    ensures { result ≡ counted max }
{
    if max == 0 || max > MAX_DATA_LENGTH {
        MAX_DATA_LENGTH
    } else {
        max
    }
}

/// Returns whether a maximum length has no room for a fragment of two bytes.
fn is_too_small(max: u32) -> bool
    ensures { result ≡ is_too_small max }
{
    max > 0 && max < 8
}

/// Returns the implementation version name (PS3.7 annex D.3.3.2.4). It names what is exchanged, and changes with that
/// alone: `upsd --version` tells the version of the program.
///
/// # Errors
///
/// If memory runs out.
pub fn version_name<A: Allocator + Copy>(alloc: A) -> Result<Bytes<A>, AllocError>
    ensures { IfOk result (λ name. name ≡ version_name) }
{
    Bytes::copy_of(alloc, b"UPSD_1")
}

/// Returns the user information of this server (PS3.7 annex D.3.3.2).
///
/// Errors: lack of memory.
fn this_server<A: Allocator + Copy>(alloc: A) -> Result<UserInformation<A>, AllocError>
    ensures { IfOk result (λ u. u ≡ this_server) }
{
    let implementation_version = version_name(alloc)?;
    Ok(UserInformation {
        maximum_length: MAX_DATA_LENGTH,
        implementation_class: Some(RegisteredUid::Implementation.uid()),
        asynchronous_window: None,
        roles: Roles::from_vec(Vec::new(alloc)),
        implementation_version: Some(implementation_version),
    })
}

/// Returns the acceptance of a request from the calling application entity `ae`.
///
/// Errors: lack of memory.
#[tactic(auto, unfolding(crate::specs::Negotiation::acceptance))]
fn accept_request<A: Allocator + Copy>(
    alloc: A,
    request: &AssociateRq<A>,
    ae: Ae,
) -> Result<Acceptance<A>, AllocError>
    ensures accepts { IfOk result (λ a. a ≡ acceptance request.now ae) }
    ensures ids { IfOk result (λ a. AllByRecursion (λ c. c.id < 256) a.ac.contexts) }
{
    let proposed = request.contexts.as_slice();
    let answers = answers_to(alloc, proposed)?;
    let contexts = accepted_of(alloc, proposed)?;
    let user_information = this_server(alloc)?;
    Ok(Acceptance {
        ac: AssociateAc {
            protocol_version: 1,
            called: request.called,
            calling: request.calling,
            application_context: RegisteredUid::ApplicationContext.uid(),
            contexts: answers,
            user_information,
        },
        ae,
        contexts,
        max: counted(request.user_information.maximum_length),
    })
}

/// Returns the answer to an association request: the first rejection that applies, or else an acceptance, in which
/// each presentation context is accepted or refused by itself.
///
/// # Errors
///
/// `Memory` if memory runs out.
pub fn negotiate<A: Allocator + Copy>(
    alloc: A,
    config: &Config,
    request: &AssociateRq<A>,
) -> Result<Outcome<A>, AssocFault>
    ensures outcome { IfOk result (λ o. o ≡ outcome config.now.ae request.now) }
    ensures memory { IfErr result (λ e. e ≡ Memory) }
    // Only an acceptance needs memory.
    ensures only_accepting { OnErr result ((accepted : Acceptance A) × (outcome config.now.ae request.now ≡ Accept accepted)) }
    // An answer to a request that was read can be written.
    ensures fits { (bytes : List ℕ) → SpellsPdu bytes (RequestPdu request.now) → IfOk result IsWritable }
{
    if !has_version_1(request.protocol_version) {
        return Ok(Outcome::Reject(Rejection::ProtocolVersionNotSupported));
    }
    if !is_dicom(&request.application_context) {
        return Ok(Outcome::Reject(Rejection::ApplicationContextNotSupported));
    }
    if !is_title(config.ae, &request.called) {
        return Ok(Outcome::Reject(Rejection::CalledAeNotRecognized));
    }
    let Some(ae) = title_of(&request.calling) else {
        return Ok(Outcome::Reject(Rejection::CallingAeNotRecognized));
    };
    if is_too_small(request.user_information.maximum_length) {
        return Ok(Outcome::Reject(Rejection::NoReason));
    }
    Ok(Outcome::Accept(accept_request(alloc, request, ae)?))
}
