//! A pass to a desk.
ghost use Rattle.std.specs.Prelude.{◌≡◌, [], ◌∷◌, ◌+◌, ◌<◌, ◌^◌, false, None, length};
ghost use Rattle.ups_turn.specs.Pass.{part_of};

use crate::rule::PassSeat;
use std::alloc::Allocator;
use std::marker::Model;
use ups_service::SharedService;

/// A pass to a desk, which one thread at a time may hold. A contract sees it as the table of its desk, what was fixed
/// at the start of the manager there, its number, the number of calls that it has made, and the history that it has
/// seen.
#[derive(Drop)]
pub struct Pass<M: SharedService<A>, A: Allocator + Copy> {
    pub(crate) place: PassSeat<M, A>,
    pub(crate) number: u32,
    pub(crate) calls: u64,
    /// The number of entries that it has seen.
    pub(crate) front: u64,
}

impl<M: SharedService<A>, A: Allocator + Copy> Model for Pass<M, A> {
    ghost use Rattle.std.specs.Prelude.{◌≡◌, ◌≤◌, [], length};
    ghost use Rattle.ups_service.specs.Law.{is_legal};
    ghost use Rattle.ups_turn.specs.Pass.{PassView, resting, seen_in, most_calls};

    ghost Value = { PassView A };

    ghost use Rattle.std.specs.Coded.{codes};
    ghost use Rattle.ups_dataset.specs.Code.{set_code};

    ghost coded = { Prim.hlevel (set_code, codes) };

    ghost view = { λ p. record { table = p.place.table_id; settings = p.place.me.0.settings; number = p.number; calls = p.calls; seen = seen_in p.place.me.0.parts } };

    ghost invariant = { λ p. (p.place.me ≡ (resting p.place.me.0.settings p.number p.calls (seen_in p.place.me.0.parts), [])) × (p.front ≡ length (seen_in p.place.me.0.parts)) × (p.calls ≤ most_calls) × is_legal p.place.me.0.settings (seen_in p.place.me.0.parts) };
}

impl<M: SharedService<A>, A: Allocator + Copy> Pass<M, A> {
    /// Returns the number of the pass, from 1 up. The entries of the pass have it as their caller.
    pub fn number(&self) -> u32
        ensures { result ≡ self.now.number }
    {
        self.number
    }

    /// Returns the number of entries of the history that the pass has seen.
    pub fn seen(&self) -> u64
        ensures { result ≡ length self.now.seen }
    {
        self.front
    }

    /// Returns the seat of the pass.
    pub(crate) fn into_place(self) -> PassSeat<M, A>
        ensures table { result.table_id ≡ self.table }
        ensures rests { (result.me.0.ticket ≡ None) × (result.me.0.turn ≡ false) × (result.me.1 ≡ []) }
        ensures part { result.me.0.parts ≡ part_of self ∷ [] }
    {
        let Pass {
            place,
            number: _,
            calls: _,
            front: _,
        } = self;
        place
    }
}
