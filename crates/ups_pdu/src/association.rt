//! Reading association requests and answers (PS3.8 sections 9.3.2 and 9.3.3).

ghost use Rattle.std.specs.Prelude.{◌≡◌, ◌<◌, ◌++◌, ◌∷◌, [], List, ℕ, length, MatchOption, IfOk};
ghost use Rattle.ups_pdu.specs.Association.{IsAssociateHead, AreAssociateItems, SpellsAssociateRq, SpellsAssociateAc};
ghost use Rattle.ups_pdu.specs.Spelling.{Gives};

use crate::associate::{AnsweredContext, AssociateAc, AssociateRq};
use crate::context::{ProposedHead, ids_differ, proposed_contexts_of};
use crate::fault::PduFault;
use crate::item::{Spelled, all_of, are_all, has, has_only, only, optional_content};
use crate::lengths::{Plain, items_fill};
use crate::lists::AnsweredContexts;
use crate::number::be_u16_at;
use crate::uid::Uid;
use crate::user::{user_information_of, user_parts};
use std::alloc::Allocator;

/// The fields before the items of an association PDU, and the bytes of the items.
#[derive(Clone, Copy)]
struct Head<'a> {
    protocol_version: u16,
    called: [u8; 16],
    calling: [u8; 16],
    items: &'a [u8],
}

/// Splits off the 16 bytes of an application entity title, and returns them with the bytes that follow.
fn title_at(bytes: &[u8]) -> Option<([u8; 16], &[u8])>
    ensures { MatchOption result (length bytes.now < 16) (λ x. (length x.0 ≡ 16) × (bytes.now ≡ x.0 ++ x.1.now)) }
{
    let (title, rest) = bytes.split_first_chunk::<16>()?;
    Some((*title, rest))
}

/// Skips `count` reserved bytes, and returns the bytes that follow.
fn behind(count: usize, bytes: &[u8]) -> Option<&[u8]>
    ensures { MatchOption result (length bytes.now < count) (λ rest. (reserved : List ℕ) × (length reserved ≡ count) × (bytes.now ≡ reserved ++ rest.now)) }
{
    if bytes.len() < count {
        return None;
    }
    let (_, rest) = bytes.split_at(count);
    Some(rest)
}

/// Splits the body of an association PDU into its fields and its items.
fn split_head(body: &[u8]) -> Option<Head<'_>>
    ensures { MatchOption result
        ((version : ℕ) → (called : List ℕ) → (calling : List ℕ) → (text : List ℕ) → IsAssociateHead body.now version called calling text → ⊥)
        (λ h. IsAssociateHead body.now h.protocol_version h.called h.calling h.items.now) }
{
    let (protocol_version, rest) = be_u16_at(body)?;
    let rest = behind(2, rest)?;
    let (called, rest) = title_at(rest)?;
    let (calling, rest) = title_at(rest)?;
    let items = behind(32, rest)?;
    Some(Head {
        protocol_version,
        called,
        calling,
        items,
    })
}

/// The parts of the items of an association PDU that are read without allocating memory.
#[derive(Clone, Copy)]
struct Items<'a> {
    application_context: Uid,
    user_information: &'a [u8],
}

/// Reads the items of an association PDU whose presentation contexts are items of type `kind`, or returns None if
/// they are malformed.
fn association_items<T: Spelled>(kind: u8, bytes: &[u8]) -> Option<Items<'_>>
    ensures { MatchOption result
        ((uid : List ℕ) → (contexts : List T) → (user : List ℕ) → AreAssociateItems kind T.spells bytes.now uid contexts user → ⊥)
        (λ i. (contexts : List T) × AreAssociateItems kind T.spells bytes.now i.application_context contexts i.user_information.now) }
{
    if !items_fill::<Plain>(bytes) {
        return None;
    }
    if !has_only(&[0x10, kind, 0x50], bytes) {
        return None;
    }
    let application_context = only::<Uid>(0x10, bytes)?;
    let user_information = optional_content(0x50, bytes)??;
    if !has(kind, bytes) {
        return None;
    }
    if !are_all::<T>(kind, bytes) {
        return None;
    }
    if !ids_differ(kind, bytes) {
        return None;
    }
    Some(Items {
        application_context,
        user_information,
    })
}

/// Reads an association request from the body of its PDU.
pub(crate) fn request_of<A: Allocator + Copy>(
    alloc: A,
    body: &[u8],
) -> Result<AssociateRq<A>, PduFault>
    ensures { Gives (SpellsAssociateRq body.now) result }
{
    let Some(head) = split_head(body) else {
        return Err(PduFault::BadItem);
    };
    let Some(items) = association_items::<ProposedHead>(0x20, head.items) else {
        return Err(PduFault::BadItem);
    };
    let Some(user) = user_parts(items.user_information) else {
        return Err(PduFault::BadItem);
    };
    let contexts = proposed_contexts_of(alloc, head.items)?;
    let user_information = user_information_of(alloc, items.user_information, &user)?;
    Ok(AssociateRq {
        protocol_version: head.protocol_version,
        called: head.called,
        calling: head.calling,
        application_context: items.application_context,
        contexts,
        user_information,
    })
}

/// Reads the answer to an association request from the body of its PDU.
pub(crate) fn answer_of<A: Allocator + Copy>(
    alloc: A,
    body: &[u8],
) -> Result<AssociateAc<A>, PduFault>
    ensures { Gives (SpellsAssociateAc body.now) result }
{
    let Some(head) = split_head(body) else {
        return Err(PduFault::BadItem);
    };
    let Some(items) = association_items::<AnsweredContext>(0x21, head.items) else {
        return Err(PduFault::BadItem);
    };
    let Some(user) = user_parts(items.user_information) else {
        return Err(PduFault::BadItem);
    };
    let contexts = all_of(alloc, 0x21, head.items)?;
    let user_information = user_information_of(alloc, items.user_information, &user)?;
    Ok(AssociateAc {
        protocol_version: head.protocol_version,
        called: head.called,
        calling: head.calling,
        application_context: items.application_context,
        contexts: AnsweredContexts::from_vec(contexts),
        user_information,
    })
}
