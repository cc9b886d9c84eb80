//! Reading the user information (PS3.8 section 9.3.2.3, annex D; PS3.7 annex D.3.3).

ghost use Rattle.std.specs.Prelude.{◌≡◌, List, ℕ, Option, MatchOption, IfOk};
ghost use Rattle.std.specs.Option.{option_copied};
ghost use Rattle.ups_pdu.specs.declared.associate.AsynchronousWindow.{AsynchronousWindow};
ghost use Rattle.ups_pdu.specs.declared.associate.Role.{Role};
ghost use Rattle.ups_pdu.specs.Identifier.{SpellsUid};
ghost use Rattle.ups_pdu.specs.UserItems.{SpellsMaximumLength, SpellsWindow, IsUserInformation, SpellsUserInformation};

use crate::associate::{AsynchronousWindow, Role, UserInformation};
use crate::bytes::Bytes;
use crate::item::{Spelled, all_of, are_all, optional, optional_content};
use crate::lengths::{Plain, items_fill};
use crate::lists::Roles;
use crate::number::{be_u16_at, be_u32_at};
use crate::uid::Uid;
use std::alloc::{AllocError, Allocator};

impl Spelled for Uid {
    ghost spells = { SpellsUid };

    fn spelled_by(content: &[u8]) -> Option<Uid> {
        Uid::of(content)
    }
}

/// The content of a maximum length sub-item (PS3.8 annex D.1).
impl Spelled for u32 {
    ghost spells = { SpellsMaximumLength };

    fn spelled_by(content: &[u8]) -> Option<u32> {
        let (length, rest) = be_u32_at(content)?;
        rest.is_empty().then_some(length)
    }
}

impl Spelled for AsynchronousWindow {
    ghost spells = { SpellsWindow };

    fn spelled_by(content: &[u8]) -> Option<AsynchronousWindow> {
        let (invoked, rest) = be_u16_at(content)?;
        let (performed, rest) = be_u16_at(rest)?;
        if !rest.is_empty() {
            return None;
        }
        Some(AsynchronousWindow { invoked, performed })
    }
}

/// The user information without its roles, which stay in the bytes.
#[derive(Clone, Copy)]
pub(crate) struct UserParts<'a> {
    maximum_length: u32,
    implementation_class: Option<Uid>,
    asynchronous_window: Option<AsynchronousWindow>,
    implementation_version: Option<&'a [u8]>,
}

/// Reads the user information from the content of its item, or returns None if it is malformed, roles included.
pub(crate) fn user_parts(content: &[u8]) -> Option<UserParts<'_>>
    ensures { MatchOption result
        ((maximum : ℕ) → (class : Option (List ℕ)) → (window : Option AsynchronousWindow) → (roles : List Role) → (version : Option (List ℕ))
        → IsUserInformation content.now maximum class window roles version → ⊥)
        (λ p. (roles : List Role) × IsUserInformation content.now p.maximum_length p.implementation_class p.asynchronous_window roles (option_copied p.implementation_version)) }
{
    if !items_fill::<Plain>(content) {
        return None;
    }
    let stated = optional::<u32>(0x51, content)?;
    let implementation_class = optional::<Uid>(0x52, content)?;
    let asynchronous_window = optional::<AsynchronousWindow>(0x53, content)?;
    let implementation_version = optional_content(0x55, content)?;
    if !are_all::<Role>(0x54, content) {
        return None;
    }
    Some(UserParts {
        maximum_length: stated.unwrap_or(0),
        implementation_class,
        asynchronous_window,
        implementation_version,
    })
}

/// Copies the bytes, or returns None for None.
fn copy_of<A: Allocator + Copy>(
    alloc: A,
    bytes: Option<&[u8]>,
) -> Result<Option<Bytes<A>>, AllocError>
    ensures { IfOk result (λ copy. copy ≡ option_copied bytes.entry) }
{
    match bytes {
        Some(bytes) => Ok(Some(Bytes::copy_of(alloc, bytes)?)),
        None => Ok(None),
    }
}

/// Reads the roles, and returns the user information in memory of its own.
pub(crate) fn user_information_of<A: Allocator + Copy>(
    alloc: A,
    content: &[u8],
    parts: &UserParts<'_>,
) -> Result<UserInformation<A>, AllocError>
    ensures { (roles : List Role)
        → IsUserInformation content.now parts.now.maximum_length parts.now.implementation_class parts.now.asynchronous_window roles (option_copied parts.now.implementation_version)
        → IfOk result (SpellsUserInformation content.now) }
{
    let roles = all_of(alloc, 0x54, content)?;
    let implementation_version = copy_of(alloc, parts.implementation_version)?;
    Ok(UserInformation {
        maximum_length: parts.maximum_length,
        implementation_class: parts.implementation_class,
        asynchronous_window: parts.asynchronous_window,
        roles: Roles::from_vec(roles),
        implementation_version,
    })
}
