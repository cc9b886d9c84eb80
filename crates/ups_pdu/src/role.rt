//! Reading a role selection (PS3.7 annex D.3.3.4).

ghost use Rattle.std.specs.Prelude.{◌≡◌, List, ℕ, MatchOption};
ghost use Rattle.ups_pdu.specs.UserItems.{IsRole, SpellsRole};

use crate::associate::Role;
use crate::item::Spelled;
use crate::number::be_u16_at;
use crate::uid::Uid;

/// Splits a role selection into the bytes of its UID, the SCU role and the SCP role.
pub(crate) fn split_role(content: &[u8]) -> Option<(&[u8], u8, u8)>
    ensures { MatchOption result ((text : List ℕ) → (scu : ℕ) → (scp : ℕ) → IsRole content.now text scu scp → ⊥)
        (λ x. IsRole content.now x.0.now x.1 x.2) }
{
    let (len, rest) = be_u16_at(content)?;
    let [text @ .., scu, scp] = rest else {
        return None;
    };
    if text.len() != usize::from(len) {
        return None;
    }
    Some((text, *scu, *scp))
}

impl Spelled for Role {
    ghost spells = { SpellsRole };

    fn spelled_by(content: &[u8]) -> Option<Role> {
        let (text, scu, scp) = split_role(content)?;
        let sop_class = Uid::of(text)?;
        Some(Role {
            sop_class,
            scu,
            scp,
        })
    }
}
