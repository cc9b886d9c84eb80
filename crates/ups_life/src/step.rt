//! The UIDs of steps.

ghost use Rattle.std.specs.Prelude.{◌≡◌};
ghost use Rattle.ups_life.specs.Instances.{is_well_known, IsStepUid, step_under};

use std::hash::{Hash, Hasher};
use std::marker::Model;
use ups_pdu::{RegisteredUid, Uid};

/// Returns whether a UID is well known: one of the two for global subscriptions (PS3.4 CC.2.3).
pub(crate) fn is_well_known(uid: Uid) -> bool
    ensures { result ≡ is_well_known uid }
{
    uid.as_bytes() == RegisteredUid::GlobalSubscription.text()
        || uid.as_bytes() == RegisteredUid::FilteredGlobalSubscription.text()
}

/// The UID of a step, which is never one of the two for global subscriptions (PS3.4 CC.2.3). A contract sees it as the
/// list of its bytes.
#[derive(Clone, Copy)]
pub struct StepUid {
    uid: Uid,
}

impl Model for StepUid {
    ghost use Rattle.std.specs.Prelude.{ℕ, List, refl};
    ghost use Rattle.ups_life.specs.Instances.{IsStepUid};

    ghost Value = { List ℕ };

    ghost view = { λ s. s.uid };

    ghost invariant = { λ s. IsStepUid s.uid };

    ghost inverse = { λ t. record { uid = t } };

    ghost inverse_ok = { λ a h. refl };
}

impl StepUid {
    /// Converts a UID to that of a step, or returns None if it is well known.
    pub fn of(uid: Uid) -> Option<StepUid>
        ensures { result ≡ step_under uid }
    {
        let _bytes = uid.as_bytes();
        if is_well_known(uid) {
            return None;
        }
        Some(StepUid { uid })
    }

    /// Returns the UID.
    pub fn uid(self) -> Uid
        ensures { result ≡ self }
    {
        self.uid
    }

    /// Returns the bytes of the UID, without padding.
    pub fn as_bytes(&self) -> &[u8]
        ensures bytes { result.now ≡ self.now }
        ensures is_step { IsStepUid self.now }
    {
        let StepUid { uid } = self;
        uid.as_bytes()
    }
}

impl PartialEq for StepUid {
    ghost use Rattle.std.specs.Prelude.{nat_eq};
    ghost use Rattle.std.specs.Cmp.Lexicographic.{pointwise, nat_list_eq_equiv};
    ghost use Rattle.std.specs.Cmp.{partial_equiv_from_equiv};

    ghost eq = { λ a b. pointwise nat_eq a b };

    ghost laws = { partial_equiv_from_equiv nat_list_eq_equiv };

    fn eq(&self, other: &StepUid) -> bool {
        self.as_bytes() == other.as_bytes()
    }
}

impl Eq for StepUid {
    ghost use Rattle.std.specs.Cmp.Lexicographic.{nat_list_eq_equiv};

    ghost laws = { nat_list_eq_equiv };
}

impl Hash for StepUid {
    ghost use Rattle.std.specs.Prelude.{[], ◌∷◌};
    ghost use Rattle.std.proofs.Common.{rules};
    ghost use Rattle.std.specs.Cmp.Rules.{hashing};

    ghost hash_input = { λ u. u ∷ [] };

    ghost respects_eq = { Prim.search (hashing, rules) };

    fn hash<H: Hasher>(&self, state: &mut H) {
        // in one write, and not byte by byte
        state.write(self.as_bytes());
    }
}
