//! The iterator over the held steps.

ghost use Rattle.std.specs.Prelude.{◌≡◌, ◌<◌, ◌≤◌, ◌-◌, ◌^◌, drop, length, take};
ghost use Rattle.std.specs.Iterator.{at_most};
ghost use Rattle.std.specs.List.{IsDistinct};
ghost use Rattle.std.specs.Map.{keys_of};
ghost use Rattle.std.specs.Map.Iter.{TakesFirst, deref_pair};
ghost use Rattle.std.specs.Str.{bytes_eq};
ghost use Rattle.ups_steps.specs.Places.{held_in};

use crate::held::HeldRow;
use crate::places::Places;
use indexmap::map;
use std::alloc::Allocator;
use std::marker::Model;
use ups_life::StepUid;

/// An iterator over the held steps, in order of creation, each as its UID and its row and holder. A contract sees the
/// steps that are left.
#[derive(Drop)]
pub struct Iter<'a, A: Allocator + Copy> {
    places: map::Iter<'a, StepUid, Option<HeldRow<A>>>,
}

impl<'a, A: Allocator + Copy> Model for Iter<'a, A> {
    ghost use Rattle.std.specs.Prelude.{List, ℕ};
    ghost use Rattle.ups_steps.specs.declared.held.HeldRow.{HeldRow as HeldOf};
    ghost use Rattle.ups_steps.specs.Places.{held_in};

    ghost Value = { List (List ℕ × HeldOf A) };

    ghost use Rattle.std.specs.Coded.{codes};
    ghost use Rattle.ups_dataset.specs.Code.{set_code};

    ghost coded = { Prim.hlevel (set_code, codes) };

    ghost view = { λ i. held_in i.places };
}

impl<'a, A: Allocator + Copy> Iter<'a, A> {
    pub(crate) fn over(places: &'a Places<A>) -> Iter<'a, A>
        ensures rest { result ≡ held_in places.now.entries }
        ensures unique { IsDistinct bytes_eq (keys_of places.now.entries) }
        ensures fits { length places.now.entries < 2 ^ 63 }
    {
        Iter {
            places: places.iter(),
        }
    }

    /// Returns an iterator over the steps that hold the places from `start` up to `end`.
    pub(crate) fn between(places: &'a Places<A>, start: usize, end: usize) -> Iter<'a, A>
        requires order { start ≤ end }
        requires within { end ≤ length places.now.entries }
        ensures { result ≡ held_in (take (end - start) (drop start places.now.entries)) }
    {
        let Some(range) = places.get_range(start..end) else {
            unreachable!();
        };
        Iter {
            places: range.iter(),
        }
    }
}

impl<'a, A: Allocator + Copy> Iterator for Iter<'a, A> {
    type Item = (&'a StepUid, &'a HeldRow<A>);

    ghost next_gives = { TakesFirst deref_pair };

    ghost remaining = { λ s. at_most (length s) };

    fn next(&mut self) -> Option<(&'a StepUid, &'a HeldRow<A>)> {
        while let Some((step, place)) = self.places.next() {
            if let Some(held) = place {
                return Some((step, held));
            }
        }
        None
    }
}
