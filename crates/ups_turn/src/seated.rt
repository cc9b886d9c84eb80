//! A pass that a thread owns, as the service of its sessions.

ghost use Rattle.std.specs.Prelude.{◌≡◌, length};
ghost use Rattle.ups_service.specs.Law.{callers};
ghost use Rattle.ups_turn.specs.Pass.{seen_by};

use crate::desk::Desk;
use crate::pass::Pass;
use std::alloc::Allocator;
use std::marker::{Brand, PhantomData};
use std::sync::Wait;
use ups_life::{Ask, Reply};
use ups_pdu::Ae;
use ups_service::{Service, SharedService};

/// What does not change during a session: the desk of the pass, what was fixed at its opening, and the number of the
/// pass. A session is generic over any service, so its contracts say nothing of them; a type that names them keeps
/// them.
pub trait Fixed {
    ghost use Rattle.std.specs.Prelude.{ℕ};
    ghost use Rattle.atomic_table.specs.Seated.{TableId};
    ghost use Rattle.ups_life.specs.Settings.{Settings};

    ghost table: { TableId };

    ghost settings: { Settings };

    ghost number: { ℕ };
}

impl Fixed for Brand {
    ghost use Rattle.ups_turn.specs.Pass.{no_table, no_settings};

    ghost table = { no_table };

    ghost settings = { no_settings };

    ghost number = { 0 };
}

/// A service that owns a pass, at its desk. Unlike `At`, it keeps the pass at its desk even when a function that is
/// generic over any service uses it.
#[derive(Drop)]
pub struct Seated<'a, F: Fixed, M: SharedService<A>, A: Allocator + Copy, R: Wait> {
    rt: &'a R,
    desk: &'a Desk<M, A>,
    pass: Pass<M, A>,
    fixed: PhantomData<F>,
    ghost desk_is: { desk.now.table ≡ F.table },
    ghost table_is: { pass.table ≡ F.table },
    ghost settings_are: { pass.settings ≡ F.settings },
    ghost number_is: { pass.number ≡ F.number },
}

impl<'a, F: Fixed, M: SharedService<A>, A: Allocator + Copy, R: Wait> Seated<'a, F, M, A, R> {
    /// Returns a pass at its desk, as a service.
    pub fn new(rt: &'a R, desk: &'a Desk<M, A>, pass: Pass<M, A>) -> Seated<'a, F, M, A, R>
        requires desk { desk.now.table ≡ F.table }
        requires table { pass.table ≡ F.table }
        requires settings { pass.settings ≡ F.settings }
        requires number { pass.number ≡ F.number }
        ensures { result.pass ≡ pass }
    {
        Seated {
            rt,
            desk,
            pass,
            fixed: PhantomData,
        }
    }

    /// Returns the number of entries of the history that the pass has seen.
    pub fn seen(&self) -> u64
        ensures { result ≡ length self.now.pass.seen }
    {
        self.pass.seen()
    }

    /// Returns the pass.
    pub fn into_pass(self) -> Pass<M, A>
        ensures pass { result ≡ self.entry.pass }
        ensures table { result.table ≡ F.table }
        ensures settings { result.settings ≡ F.settings }
        ensures number { result.number ≡ F.number }
    {
        let Seated { pass, .. } = self;
        pass
    }
}

impl<'a, F: Fixed, M: SharedService<A>, A: Allocator + Copy, R: Wait> Service<A>
    for Seated<'a, F, M, A, R> {
    ghost settings = { λ s. s.pass.settings };

    ghost others = { λ _. callers };

    ghost caller = { λ s. s.pass.number };

    ghost seen = { λ s. seen_by s.pass };

    fn answer(&mut self, ae: Ae, moment: u64, ask: &mut Option<Ask<A>>) -> Reply<A> {
        self.desk
            .at(self.rt, &mut self.pass)
            .answer(ae, moment, ask)
    }
}
