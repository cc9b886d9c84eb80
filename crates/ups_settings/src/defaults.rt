//! The defaults of the settings.

ghost use Rattle.std.specs.Prelude.{◌≡◌};
ghost use Rattle.ups_settings.specs.Defaults.{keep_seconds, local_offset};

/// The default minimum number of seconds for which a finished step is kept.
pub const KEEP: u32 = 60;

/// The default offset of the local time from UTC, in minutes.
pub const OFFSET: i16 = 0;

/// Does nothing at run time: its contract tells a proof that the defaults are those of the definitions.
pub fn defaults_are_as_defined()
    ensures keep { KEEP ≡ keep_seconds }
    ensures offset { OFFSET ≡ local_offset }
{}
