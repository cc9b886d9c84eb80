//! Reading presentation contexts (PS3.8 sections 9.3.2.2 and 9.3.3.2).

ghost use Rattle.std.specs.Prelude.{◌↔◌, List, ℕ, MatchOption, IfOk, IsTrue, map};
ghost use Rattle.ups_pdu.specs.declared.associate.ContextAnswer.{ContextAnswer};
ghost use Rattle.ups_pdu.specs.declared.associate.ProposedContext.{ProposedContext};
ghost use Rattle.ups_pdu.specs.Item.{HasContents, EachSpells};
ghost use Rattle.ups_pdu.specs.Context.{IsContextHead, IsProposedContext, IsProposedHead, AreSyntaxes, AnswersBy, SpellsProposedContext, SpellsAnsweredContext, first_byte, are_context_ids};

use crate::associate::{AnsweredContext, ContextAnswer, ProposedContext};
use crate::item::{Spelled, all_of, are_all, has, has_only, next_of, only, optional_content};
use crate::lengths::{Plain, items_fill};
use crate::lists::{ProposedContexts, Uids};
use crate::uid::Uid;
use std::alloc::{AllocError, Allocator};

/// Splits a presentation context into its id, the byte of its result, and its sub-items.
fn split_context(content: &[u8]) -> Option<(u8, u8, &[u8])>
    ensures { MatchOption result ((id : ℕ) → (outcome : ℕ) → (text : List ℕ) → IsContextHead content.now id outcome text → ⊥)
        (λ x. IsContextHead content.now x.0 x.1 x.2.now) }
{
    match content {
        [id, _, outcome, _, text @ ..] => Some((*id, *outcome, text)),
        _ => None,
    }
}

/// A proposed presentation context without its transfer syntaxes, which stay in the bytes.
#[derive(Clone, Copy)]
pub(crate) struct ProposedHead {
    id: u8,
    abstract_syntax: Uid,
}

/// Reads the abstract syntax from the sub-items of a proposed presentation context, or returns None if they are
/// malformed, transfer syntaxes included.
fn abstract_syntax_of(text: &[u8]) -> Option<Uid>
    ensures { MatchOption result
        ((uid : List ℕ) → (transfer_syntaxes : List (List ℕ)) → AreSyntaxes text.now uid transfer_syntaxes → ⊥)
        (λ uid. (transfer_syntaxes : List (List ℕ)) × AreSyntaxes text.now uid transfer_syntaxes) }
{
    if !items_fill::<Plain>(text) {
        return None;
    }
    if !has_only(&[0x30, 0x40], text) {
        return None;
    }
    let uid = only::<Uid>(0x30, text)?;
    if !has(0x40, text) {
        return None;
    }
    if !are_all::<Uid>(0x40, text) {
        return None;
    }
    Some(uid)
}

impl Spelled for ProposedHead {
    ghost spells = { IsProposedHead };

    fn spelled_by(content: &[u8]) -> Option<ProposedHead> {
        let (id, _, text) = split_context(content)?;
        let abstract_syntax = abstract_syntax_of(text)?;
        Some(ProposedHead {
            id,
            abstract_syntax,
        })
    }
}

/// Reads the answer to a presentation context from its result and its sub-items.
fn answer_of(outcome: u8, text: &[u8]) -> Option<ContextAnswer>
    ensures { MatchOption result ((answer : ContextAnswer) → AnswersBy text.now outcome answer → ⊥) (AnswersBy text.now outcome) }
{
    if !items_fill::<Plain>(text) {
        return None;
    }
    if !has_only(&[0x40], text) {
        return None;
    }
    if outcome == 0 {
        let uid = only::<Uid>(0x40, text)?;
        return Some(ContextAnswer::Accepted(uid));
    }
    optional_content(0x40, text)?;
    Some(ContextAnswer::Refused(outcome))
}

impl Spelled for AnsweredContext {
    ghost spells = { SpellsAnsweredContext };

    fn spelled_by(content: &[u8]) -> Option<AnsweredContext> {
        let (id, outcome, text) = split_context(content)?;
        let answer = answer_of(outcome, text)?;
        Some(AnsweredContext { id, answer })
    }
}

/// Returns whether the ids of the presentation contexts, which are items of type `kind`, are odd and different.
pub(crate) fn ids_differ(kind: u8, bytes: &[u8]) -> bool
    ensures { (found : List (List ℕ)) → HasContents kind bytes.now found → IsTrue result ↔ IsTrue (are_context_ids (map first_byte found)) }
{
    let mut seen = [false; 256];
    let mut rest = bytes;
    while let Some((content, after)) = next_of(kind, rest) {
        let [id, ..] = content else {
            return false;
        };
        let id = usize::from(*id);
        if id % 2 == 0 {
            return false;
        }
        if seen[id] {
            return false;
        }
        seen[id] = true;
        rest = after;
    }
    true
}

/// Reads the proposed presentation context in an item, or returns None if it is malformed.
fn proposed_context_of<A: Allocator + Copy>(
    alloc: A,
    content: &[u8],
) -> Result<Option<ProposedContext<A>>, AllocError>
    ensures { IfOk result (λ found. MatchOption found ((context : ProposedContext A) → SpellsProposedContext content.now context → ⊥) (SpellsProposedContext content.now)) }
{
    let Some(head) = ProposedHead::spelled_by(content) else {
        return Ok(None);
    };
    let Some((_, _, text)) = split_context(content) else {
        return Ok(None);
    };
    let uids = all_of(alloc, 0x40, text)?;
    Ok(Some(ProposedContext {
        id: head.id,
        abstract_syntax: head.abstract_syntax,
        transfer_syntaxes: Uids::from_vec(uids),
    }))
}

/// Reads the proposed presentation contexts, in order, and skips malformed ones.
pub(crate) fn proposed_contexts_of<A: Allocator + Copy>(
    alloc: A,
    bytes: &[u8],
) -> Result<ProposedContexts<A>, AllocError>
    ensures { (found : List (List ℕ)) → HasContents 0x20 bytes.now found → (contexts : List (ProposedContext A)) → EachSpells SpellsProposedContext found contexts
        → IfOk result (EachSpells SpellsProposedContext found) }
{
    let mut contexts = Vec::new(alloc);
    let mut rest = bytes;
    while let Some((content, after)) = next_of(0x20, rest) {
        if let Some(context) = proposed_context_of(alloc, content)? {
            contexts.push(context)?;
        }
        rest = after;
    }
    Ok(ProposedContexts::from_vec(contexts))
}
