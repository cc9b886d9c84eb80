//! Writing the items of association PDUs (PS3.8 sections 9.3.2 and 9.3.3).

ghost use Rattle.std.specs.Prelude.{◌≡◌, ◌<◌, ◌≤◌, ◌+◌, ◌-◌, ◌^◌, ◌++◌, ◌∷◌, List, ℕ, length, vec_len, OnOk, replicate};
ghost use Rattle.std.specs.List.{flat_map, AllByRecursion};
ghost use Rattle.std.specs.Option.{option_to_list};
ghost use Rattle.ups_pdu.specs.Written.{written_item, proposed_content, context_result, syntax_of, answered_content, window_content, role_content, user_content, associate_head, written_body};
ghost use Rattle.ups_pdu.specs.declared.pdu.Pdu.TheVariants as pdus;
ghost use Rattle.ups_pdu.specs.Fits.{FitsProposed, FitsUser, Fits};

use crate::associate::{
    AnsweredContext, AssociateAc, AssociateRq, AsynchronousWindow, ContextAnswer, ProposedContext,
    Role, UserInformation,
};
use crate::registered::RegisteredUid;
use crate::uid::Uid;
use std::alloc::{AllocError, Allocator};

/// Writes an item.
#[tactic(auto, unfolding(crate::specs::Written::written_item))]
fn put_item<A: Allocator + Copy>(
    out: &mut Vec<u8, A>,
    kind: u8,
    content: &[u8],
) -> Result<(), AllocError>
    requires { length content.now < 2 ^ 16 }
    ensures { OnOk result (out.new.items ≡ out.old.items ++ written_item kind content.now) }
{
    out.push(kind)?;
    out.push(0)?;
    out.extend_from_slice(&(content.len() as u16).to_be_bytes())?;
    out.extend_from_slice(content)?;
    Ok(())
}

/// Sets the length field of the item that begins at `start` to the number of bytes after its header.
#[tactic(auto, unfolding(crate::specs::Written::written_item))]
fn close_item<A: Allocator + Copy>(out: &mut Vec<u8, A>, start: usize)
    requires some { start + 4 ≤ vec_len out.old }
    requires fits { vec_len out.old - (start + 4) < 2 ^ 16 }
    ensures { (front : List ℕ) → (kind : ℕ) → (content : List ℕ) → length front ≡ start → out.old.items ≡ front ++ kind ∷ 0 ∷ 0 ∷ 0 ∷ content
        → out.new.items ≡ front ++ written_item kind content }
{
    let len = (out.len() - (start + 4)) as u16;
    let [first, second] = len.to_be_bytes();
    out[start + 2] = first;
    out[start + 3] = second;
}

/// Writes an item whose content is a UID.
fn put_uid<A: Allocator + Copy>(out: &mut Vec<u8, A>, kind: u8, uid: &Uid) -> Result<(), AllocError>
    ensures { OnOk result (out.new.items ≡ out.old.items ++ written_item kind uid.now) }
{
    put_item(out, kind, uid.as_bytes())
}

/// Writes items whose contents are UIDs.
fn put_uids<A: Allocator + Copy>(
    out: &mut Vec<u8, A>,
    kind: u8,
    uids: &[Uid],
) -> Result<(), AllocError>
    ensures { OnOk result (out.new.items ≡ out.old.items ++ flat_map (written_item kind) uids.now) }
{
    for uid in uids {
        put_uid(out, kind, uid)?;
    }
    Ok(())
}

/// Writes a proposed presentation context.
#[tactic(auto, unfolding(crate::specs::Written::written_item, crate::specs::Written::proposed_content))]
fn put_proposed<A: Allocator + Copy>(
    out: &mut Vec<u8, A>,
    context: &ProposedContext<A>,
) -> Result<(), AllocError>
    requires { FitsProposed context.now }
    ensures { OnOk result (out.new.items ≡ out.old.items ++ written_item 0x20 (proposed_content context.now)) }
{
    let start = out.len();
    out.extend_from_slice(&[0x20, 0, 0, 0, context.id, 0, 0, 0])?;
    put_uid(out, 0x30, &context.abstract_syntax)?;
    put_uids(out, 0x40, context.transfer_syntaxes.as_slice())?;
    close_item(out, start);
    Ok(())
}

/// Writes proposed presentation contexts.
fn put_all_proposed<A: Allocator + Copy>(
    out: &mut Vec<u8, A>,
    contexts: &[ProposedContext<A>],
) -> Result<(), AllocError>
    requires { AllByRecursion FitsProposed contexts.now }
    ensures { OnOk result (out.new.items ≡ out.old.items ++ flat_map (λ c. written_item 0x20 (proposed_content c)) contexts.now) }
{
    for context in contexts {
        put_proposed(out, context)?;
    }
    Ok(())
}

/// Returns the result of an answer, which is 0 if it accepts.
fn result_of(answer: ContextAnswer) -> u8
    ensures { result ≡ context_result answer }
{
    match answer {
        ContextAnswer::Accepted(_) => 0,
        ContextAnswer::Refused(outcome) => outcome,
    }
}

/// Returns the transfer syntax to write for an answer.
fn syntax_of(answer: ContextAnswer) -> Uid
    ensures syntax { result ≡ syntax_of answer }
    ensures short { length result ≤ 64 }
{
    let uid = match answer {
        ContextAnswer::Accepted(uid) => uid,
        ContextAnswer::Refused(_) => RegisteredUid::ImplicitVrLittleEndian.uid(),
    };
    let _ = uid.as_bytes();
    uid
}

/// Writes an answered presentation context.
#[tactic(auto, unfolding(crate::specs::Written::written_item, crate::specs::Written::answered_content))]
fn put_answered<A: Allocator + Copy>(
    out: &mut Vec<u8, A>,
    context: &AnsweredContext,
) -> Result<(), AllocError>
    ensures { OnOk result (out.new.items ≡ out.old.items ++ written_item 0x21 (answered_content context.now)) }
{
    let start = out.len();
    let outcome = result_of(context.answer);
    let uid = syntax_of(context.answer);
    out.extend_from_slice(&[0x21, 0, 0, 0, context.id, 0, outcome, 0])?;
    put_uid(out, 0x40, &uid)?;
    close_item(out, start);
    Ok(())
}

/// Writes answered presentation contexts.
fn put_all_answered<A: Allocator + Copy>(
    out: &mut Vec<u8, A>,
    contexts: &[AnsweredContext],
) -> Result<(), AllocError>
    ensures { OnOk result (out.new.items ≡ out.old.items ++ flat_map (λ c. written_item 0x21 (answered_content c)) contexts.now) }
{
    for context in contexts {
        put_answered(out, context)?;
    }
    Ok(())
}

/// Writes the window of asynchronous operations.
#[tactic(auto, unfolding(crate::specs::Written::written_item, crate::specs::Written::window_content))]
fn put_window<A: Allocator + Copy>(
    out: &mut Vec<u8, A>,
    window: &AsynchronousWindow,
) -> Result<(), AllocError>
    ensures { OnOk result (out.new.items ≡ out.old.items ++ written_item 0x53 (window_content window.now)) }
{
    out.extend_from_slice(&[0x53, 0, 0, 4])?;
    out.extend_from_slice(&window.invoked.to_be_bytes())?;
    out.extend_from_slice(&window.performed.to_be_bytes())
}

/// Writes a role selection.
#[tactic(auto, unfolding(crate::specs::Written::written_item, crate::specs::Written::role_content))]
fn put_role<A: Allocator + Copy>(out: &mut Vec<u8, A>, role: &Role) -> Result<(), AllocError>
    ensures { OnOk result (out.new.items ≡ out.old.items ++ written_item 0x54 (role_content role.now)) }
{
    let uid = role.sop_class.as_bytes();
    let len = uid.len() as u8;
    out.extend_from_slice(&[0x54, 0, 0, len + 4, 0, len])?;
    out.extend_from_slice(uid)?;
    out.extend_from_slice(&[role.scu, role.scp])
}

/// Writes role selections.
fn put_roles<A: Allocator + Copy>(out: &mut Vec<u8, A>, roles: &[Role]) -> Result<(), AllocError>
    ensures { OnOk result (out.new.items ≡ out.old.items ++ flat_map (λ r. written_item 0x54 (role_content r)) roles.now) }
{
    for role in roles {
        put_role(out, role)?;
    }
    Ok(())
}

/// Writes the sub-items of the user information.
#[tactic(auto, unfolding(crate::specs::Written::user_content))]
fn put_user_items<A: Allocator + Copy>(
    out: &mut Vec<u8, A>,
    info: &UserInformation<A>,
) -> Result<(), AllocError>
    requires { FitsUser info.now }
    ensures { OnOk result (out.new.items ≡ out.old.items ++ user_content info.now) }
{
    put_item(out, 0x51, &info.maximum_length.to_be_bytes())?;
    if let Some(uid) = &info.implementation_class {
        put_uid(out, 0x52, uid)?;
    }
    if let Some(window) = &info.asynchronous_window {
        put_window(out, window)?;
    }
    put_roles(out, info.roles.as_slice())?;
    if let Some(version) = &info.implementation_version {
        put_item(out, 0x55, version.as_slice())?;
    }
    Ok(())
}

/// Writes the user information.
fn put_user<A: Allocator + Copy>(
    out: &mut Vec<u8, A>,
    info: &UserInformation<A>,
) -> Result<(), AllocError>
    requires { FitsUser info.now }
    ensures { OnOk result (out.new.items ≡ out.old.items ++ written_item 0x50 (user_content info.now)) }
{
    let start = out.len();
    out.extend_from_slice(&[0x50, 0, 0, 0])?;
    put_user_items(out, info)?;
    close_item(out, start);
    Ok(())
}

/// Writes the fields before the items of an association PDU.
#[tactic(auto, unfolding(crate::specs::Written::associate_head))]
fn put_head<A: Allocator + Copy>(
    out: &mut Vec<u8, A>,
    version: u16,
    called: &[u8; 16],
    calling: &[u8; 16],
) -> Result<(), AllocError>
    ensures { OnOk result (out.new.items ≡ out.old.items ++ associate_head version called.now calling.now) }
{
    out.extend_from_slice(&version.to_be_bytes())?;
    out.extend_from_slice(&[0; 2])?;
    out.extend_from_slice(called)?;
    out.extend_from_slice(calling)?;
    out.extend_from_slice(&[0; 32])
}

/// Writes the body of an association request.
#[tactic(auto, unfolding(crate::specs::Written::associate_items))]
pub(crate) fn put_request<A: Allocator + Copy>(
    out: &mut Vec<u8, A>,
    rq: &AssociateRq<A>,
) -> Result<(), AllocError>
    requires { Fits (pdus.AssociateRq rq.now) }
    ensures { OnOk result (out.new.items ≡ out.old.items ++ written_body (pdus.AssociateRq rq.now)) }
{
    put_head(out, rq.protocol_version, &rq.called, &rq.calling)?;
    put_uid(out, 0x10, &rq.application_context)?;
    put_all_proposed(out, rq.contexts.as_slice())?;
    put_user(out, &rq.user_information)?;
    Ok(())
}

/// Writes the body of an answer to an association request.
#[tactic(auto, unfolding(crate::specs::Written::associate_items))]
pub(crate) fn put_answer<A: Allocator + Copy>(
    out: &mut Vec<u8, A>,
    ac: &AssociateAc<A>,
) -> Result<(), AllocError>
    requires { Fits (pdus.AssociateAc ac.now) }
    ensures { OnOk result (out.new.items ≡ out.old.items ++ written_body (pdus.AssociateAc ac.now)) }
{
    put_head(out, ac.protocol_version, &ac.called, &ac.calling)?;
    put_uid(out, 0x10, &ac.application_context)?;
    put_all_answered(out, ac.contexts.as_slice())?;
    put_user(out, &ac.user_information)?;
    Ok(())
}
