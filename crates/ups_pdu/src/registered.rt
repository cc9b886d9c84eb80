//! The UIDs that the service uses (PS3.6 annex A, PS3.4 annex CC).

ghost use Rattle.std.specs.Prelude.{◌≡◌};
ghost use Rattle.ups_pdu.specs.Registered.{text_of};

use crate::uid::Uid;

/// A UID that the service knows.
#[derive(Clone, Copy, Debug, PartialEq, Eq)]
pub enum RegisteredUid {
    /// Verification SOP Class.
    Verification,
    /// Unified Procedure Step - Push SOP Class; each step is an instance of it.
    UpsPush,
    /// Unified Procedure Step - Watch SOP Class.
    UpsWatch,
    /// Unified Procedure Step - Pull SOP Class.
    UpsPull,
    /// Unified Procedure Step - Event SOP Class.
    UpsEvent,
    /// UPS Global Subscription SOP Instance.
    GlobalSubscription,
    /// UPS Filtered Global Subscription SOP Instance.
    FilteredGlobalSubscription,
    /// DICOM Application Context Name.
    ApplicationContext,
    /// Implicit VR Little Endian transfer syntax.
    ImplicitVrLittleEndian,
    /// Explicit VR Little Endian transfer syntax.
    ExplicitVrLittleEndian,
    /// The implementation class of this program (PS3.7 annex D.3.3.2).
    Implementation,
}

impl RegisteredUid {
    /// Returns the bytes of the UID.
    pub fn text(self) -> &'static [u8]
        ensures { result.now ≡ text_of self }
    {
        match self {
            RegisteredUid::Verification => b"1.2.840.10008.1.1",
            RegisteredUid::UpsPush => b"1.2.840.10008.5.1.4.34.6.1",
            RegisteredUid::UpsWatch => b"1.2.840.10008.5.1.4.34.6.2",
            RegisteredUid::UpsPull => b"1.2.840.10008.5.1.4.34.6.3",
            RegisteredUid::UpsEvent => b"1.2.840.10008.5.1.4.34.6.4",
            RegisteredUid::GlobalSubscription => b"1.2.840.10008.5.1.4.34.5",
            RegisteredUid::FilteredGlobalSubscription => b"1.2.840.10008.5.1.4.34.5.1",
            RegisteredUid::ApplicationContext => b"1.2.840.10008.3.1.1.1",
            RegisteredUid::ImplicitVrLittleEndian => b"1.2.840.10008.1.2",
            RegisteredUid::ExplicitVrLittleEndian => b"1.2.840.10008.1.2.1",
            RegisteredUid::Implementation => b"2.25.7001",
        }
    }

    /// Returns the UID.
    pub fn uid(self) -> Uid
        ensures { result ≡ text_of self }
    {
        let Some(uid) = Uid::of(self.text()) else {
            unreachable!();
        };
        uid
    }
}
