//! The service that answers a session.

use std::alloc::Allocator;
use ups_life::{Ask, Reply};
use ups_pdu::Ae;

/// A service that answers a session: a manager, or a pass to a shared one. It has the settings, the number of the
/// caller that it serves, the history that it has seen, and the number of calls that it may make.
pub trait Service<A: Allocator + Copy> {
    ghost use Rattle.std.specs.Prelude.{◌≡◌, ℕ, true, is_some};
    ghost use Rattle.std.specs.Option.{IfSome};
    ghost use Rattle.ups_life.specs.Settings.{Settings, IsMoment};
    ghost use Rattle.ups_service.specs.Law.{Others, Seen, Serves, SmallReply};

    ghost settings: { Self → Settings };

    /// The others that may enter requests between two calls.
    ghost others: { Self → Others };

    ghost caller: { Self → ℕ };

    /// The history that it has seen, and the number of calls that it may make. While one is left, each reply follows
    /// from the history.
    ghost seen: { Self → Seen A };

    /// Takes the ask out of its option and answers it, as `call` does. The ask is not passed by value, since the
    /// toolchain can't yet prove an impl whose method takes a value that is generic in its allocator.
    fn answer(&mut self, ae: Ae, moment: u64, ask: &mut Option<Ask<A>>) -> Reply<A>
        requires given { is_some ask.old ≡ true }
        requires moment { IsMoment moment }
        ensures same { (settings self.new ≡ settings self.old) × (others self.new ≡ others self.old) × (caller self.new ≡ caller self.old) }
        ensures serves { IfSome ask.old (λ asked. Serves (settings self.old) (others self.old) (caller self.old) (seen self.old) ae moment asked result (seen self.new)) }
        ensures small { SmallReply result };

    /// Answers an ask of an application entity, and enters it in the history if it is an accepted request. `moment` is
    /// in seconds since 1970-01-01 UTC.
    final fn call(&mut self, ae: Ae, moment: u64, ask: Ask<A>) -> Reply<A>
        requires moment { IsMoment moment }
        ensures same { (settings self.new ≡ settings self.old) × (others self.new ≡ others self.old) × (caller self.new ≡ caller self.old) }
        ensures serves { Serves (settings self.old) (others self.old) (caller self.old) (seen self.old) ae moment ask result (seen self.new) }
        ensures small { SmallReply result }
    {
        self.answer(ae, moment, &mut Some(ask))
    }
}
