//! The gate between a session and its clock, which is called around each write.

/// A call to a gate.
#[derive(Clone, Copy, Debug, PartialEq, Eq)]
pub enum GateCall {
    /// A PDU was about to be written.
    Before,
    /// A PDU was written, or writing it failed.
    After,
    /// A moment was asked for, and this one was given.
    Moment(u64),
}

/// A gate, which gives the moments at which requests are made, and is called before and after each PDU is written. It
/// may record its calls, in order. What it recorded stays; once it has left out a call, it records none of the later
/// ones.
pub trait Gate {
    ghost use Rattle.ups_life.specs.Settings.{IsMoment};
    ghost use Rattle.std.specs.Prelude.{[], ◌∷◌};
    ghost use Rattle.ups_session.specs.declared.gate.GateCall.TheVariants.{Before, After, Moment};
    ghost use Rattle.ups_session.specs.Tells.{Told, untold, Tells};

    ghost told: { Self → Told } = { λ _. untold };

    /// Returns the present moment in seconds since 1970-01-01 UTC, at most `MAX_MOMENT`.
    fn now(&mut self) -> u64
        ensures tells { Tells (told self.old) (told self.new) (Moment result ∷ []) }
        ensures within { IsMoment result };

    /// Notes that a PDU is about to be written.
    fn before_write(&mut self)
        ensures { Tells (told self.old) (told self.new) (Before ∷ []) };

    /// Notes that a PDU was written, or that writing it failed.
    fn after_write(&mut self)
        ensures { Tells (told self.old) (told self.new) (After ∷ []) };
}
