//! The SOP classes of the service.

ghost use Rattle.std.specs.Prelude.{◌≡◌, MatchOption};
ghost use Rattle.ups_assoc.specs.declared.sop_class.SopClass.{SopClass};
ghost use Rattle.ups_assoc.specs.Classes.{registered_of, uid_of, class_of};
ghost use Rattle.ups_assoc.specs.Same.{is_same};

use ups_pdu::{RegisteredUid, Uid};

/// A SOP class for which a presentation context may be accepted (PS3.6 annex A, PS3.4 annexes A and CC).
#[derive(Clone, Copy, Debug, PartialEq, Eq)]
pub enum SopClass {
    /// Verification.
    Verification,
    /// Unified Procedure Step - Push.
    UpsPush,
    /// Unified Procedure Step - Pull.
    UpsPull,
    /// Unified Procedure Step - Watch.
    UpsWatch,
    /// Unified Procedure Step - Event.
    UpsEvent,
}

impl SopClass {
    /// Returns the UID of the SOP class.
    pub fn registered(self) -> RegisteredUid
        ensures { result ≡ registered_of self }
    {
        match self {
            SopClass::Verification => RegisteredUid::Verification,
            SopClass::UpsPush => RegisteredUid::UpsPush,
            SopClass::UpsPull => RegisteredUid::UpsPull,
            SopClass::UpsWatch => RegisteredUid::UpsWatch,
            SopClass::UpsEvent => RegisteredUid::UpsEvent,
        }
    }

    /// Returns whether the UID is that of the SOP class.
    fn has_uid(self, uid: &Uid) -> bool
        ensures { result ≡ is_same uid.now (uid_of self) }
    {
        uid.as_bytes() == self.registered().text()
    }

    /// Returns the SOP class with this UID, or None if it is none of the five.
    pub fn of(uid: &Uid) -> Option<SopClass>
        ensures class { result ≡ class_of uid.now }
        ensures both_ways { MatchOption result ((class : SopClass) → uid_of class ≡ uid.now → ⊥) (λ class. uid_of class ≡ uid.now) }
    {
        if SopClass::Verification.has_uid(uid) {
            Some(SopClass::Verification)
        } else if SopClass::UpsPush.has_uid(uid) {
            Some(SopClass::UpsPush)
        } else if SopClass::UpsPull.has_uid(uid) {
            Some(SopClass::UpsPull)
        } else if SopClass::UpsWatch.has_uid(uid) {
            Some(SopClass::UpsWatch)
        } else if SopClass::UpsEvent.has_uid(uid) {
            Some(SopClass::UpsEvent)
        } else {
            None
        }
    }
}
