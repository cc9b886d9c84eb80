//! Checks that the lengths inside a body match what they measure (PS3.8 section 9.3).

ghost use Rattle.std.specs.Prelude.{◌↔◌, ◌≤◌, List, ℕ, IsTrue, length, drop};
ghost use Rattle.ups_pdu.specs.Lengths.{AreFilled, AnyContent, UserItemFills, ContextFills, AssociationItemFills, LengthsFill};

use crate::fragment::fragments_fill;
use crate::item::item_at;
use crate::kind::PduKind;
use crate::role::split_role;

/// A place for items in a PDU, which determines the lengths inside the items.
pub(crate) trait ItemPlace {
    ghost filled: { ℕ → List ℕ → Type 0 };

    /// Returns whether the lengths inside the content of an item of type `kind` fill it exactly.
    fn is_filled(kind: u8, content: &[u8]) -> bool
        ensures { IsTrue result ↔ filled kind content.now };
}

/// A place for items with no lengths inside.
pub(crate) struct Plain;

impl ItemPlace for Plain {
    ghost filled = { AnyContent };

    fn is_filled(_kind: u8, _content: &[u8]) -> bool {
        true
    }
}

/// The sub-items of the user information, of which a role selection has a length inside.
struct InUserInformation;

impl ItemPlace for InUserInformation {
    ghost filled = { UserItemFills };

    fn is_filled(kind: u8, content: &[u8]) -> bool {
        kind != 0x54 || split_role(content).is_some()
    }
}

/// The items of an A-ASSOCIATE-RQ.
struct InRequest;

impl ItemPlace for InRequest {
    ghost filled = { AssociationItemFills 0x20 };

    fn is_filled(kind: u8, content: &[u8]) -> bool {
        association_item_fills(0x20, kind, content)
    }
}

/// The items of an A-ASSOCIATE-AC.
struct InAnswer;

impl ItemPlace for InAnswer {
    ghost filled = { AssociationItemFills 0x21 };

    fn is_filled(kind: u8, content: &[u8]) -> bool {
        association_item_fills(0x21, kind, content)
    }
}

/// Returns whether items fill the bytes exactly, and the lengths inside each item fill it exactly.
pub(crate) fn items_fill<P: ItemPlace>(bytes: &[u8]) -> bool
    ensures { IsTrue result ↔ AreFilled P.filled bytes.now }
{
    let mut rest = bytes;
    while !rest.is_empty() {
        let Some((kind, content, after)) = item_at(rest) else {
            return false;
        };
        if !P::is_filled(kind, content) {
            return false;
        }
        rest = after;
    }
    true
}

/// Returns whether sub-items exactly fill a presentation context after its first four bytes.
fn context_fills(content: &[u8]) -> bool
    ensures { IsTrue result ↔ ContextFills content.now }
{
    content.len() >= 4 && items_fill::<Plain>(&content[4..])
}

/// Returns whether the lengths inside an item of an association PDU, whose presentation contexts are items of type
/// `context_kind`, fill it exactly.
fn association_item_fills(context_kind: u8, kind: u8, content: &[u8]) -> bool
    ensures { IsTrue result ↔ AssociationItemFills context_kind kind content.now }
{
    if kind == context_kind {
        context_fills(content)
    } else if kind == 0x50 {
        items_fill::<InUserInformation>(content)
    } else {
        true
    }
}

/// Returns whether items exactly fill the body of an association PDU after its first 68 bytes.
fn association_fills<P: ItemPlace>(body: &[u8]) -> bool
    ensures { IsTrue result ↔ ((68 ≤ length body.now) × AreFilled P.filled (drop 68 body.now)) }
{
    if body.len() < 68 {
        return false;
    }
    let (_, items) = body.split_at(68);
    items_fill::<P>(items)
}

/// Returns whether the lengths inside a body fill it exactly.
pub(crate) fn lengths_fill(kind: PduKind, body: &[u8]) -> bool
    ensures { IsTrue result ↔ LengthsFill kind body.now }
{
    match kind {
        PduKind::AssociateRq => association_fills::<InRequest>(body),
        PduKind::AssociateAc => association_fills::<InAnswer>(body),
        PduKind::Data => fragments_fill(body),
        _ => body.len() == 4,
    }
}
