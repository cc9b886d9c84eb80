//! Lists of events.

ghost use Rattle.std.specs.Prelude.{◌≡◌};

use crate::event::Event;
use std::alloc::Allocator;
use std::marker::Model;

/// A list of events. A contract sees it as the list of the events.
#[derive(Drop)]
pub struct Events<A: Allocator + Copy> {
    events: Vec<Event, A>,
}

impl<A: Allocator + Copy> Model for Events<A> {
    ghost use Rattle.std.specs.Prelude.{List};
    ghost use Rattle.ups_life.specs.declared.event.Event.{Event};

    ghost Value = { List Event };

    ghost view = { λ e. e.events.items };
}

impl<A: Allocator + Copy> Events<A> {
    /// Creates a list of the events of a vector.
    pub fn from_vec(events: Vec<Event, A>) -> Events<A>
        ensures { result ≡ events.items }
    {
        Events { events }
    }

    /// Returns the events as a slice.
    pub fn as_slice(&self) -> &[Event]
        ensures { result.now ≡ self.now }
    {
        self.events.as_slice()
    }
}
