//! The rule of the desk's table, and its kinds of step. Taking the manager out of the slot and giving it back are plain
//! memory accesses, not steps.

use crate::held::Held;
use crate::view::{Opening, View};
use atomic_table::{Join, Play, Seat, Shared, Split, TableRule};
use std::alloc::Allocator;
use ups_service::SharedService;

pub struct InTurn;

impl<M: SharedService<A>, A: Allocator + Copy> TableRule<Option<Held<M, A>>, View<A>, Opening<M, A>>
    for InTurn {
    ghost use Rattle.ups_turn.specs.Rule.{KeepsRule, first_seat_view};

    ghost holds = { KeepsRule };

    ghost first = { first_seat_view };
}

/// The step that draws a ticket.
pub struct Draw;

impl<M: SharedService<A>, A: Allocator + Copy> Play<Option<Held<M, A>>, View<A>> for Draw {
    ghost use Rattle.ups_turn.specs.Plays.{Draws};

    ghost then = { Draws };
}

/// The step that reads which ticket is served.
pub struct Look;

impl<M: SharedService<A>, A: Allocator + Copy> Play<Option<Held<M, A>>, View<A>> for Look {
    ghost use Rattle.ups_turn.specs.Plays.{Looks};

    ghost then = { Looks };
}

/// The step that decides how many requests the call has entered.
pub struct Decide;

impl<M: SharedService<A>, A: Allocator + Copy> Play<Option<Held<M, A>>, View<A>> for Decide {
    ghost use Rattle.ups_turn.specs.Plays.{Decides};

    ghost then = { Decides };
}

/// The step that serves the next ticket.
pub struct Serve;

impl<M: SharedService<A>, A: Allocator + Copy> Play<Option<Held<M, A>>, View<A>> for Serve {
    ghost use Rattle.ups_turn.specs.Plays.{ServesNext};

    ghost then = { ServesNext };
}

/// The step that enters nothing, and learns what was noted.
pub struct Settle;

impl<M: SharedService<A>, A: Allocator + Copy> Play<Option<Held<M, A>>, View<A>> for Settle {
    ghost use Rattle.ups_turn.specs.Plays.{SettlesNotes};

    ghost then = { SettlesNotes };
}

/// The split that makes a note of what a seat's passes have seen.
pub struct Note;

impl<A: Allocator + Copy> Split<View<A>> for Note {
    ghost use Rattle.ups_turn.specs.Plays.{note_of};

    ghost left = { λ v. v };

    ghost right = { note_of };
}

/// The split that deals out the first of a seat's passes.
pub struct Deal;

impl<A: Allocator + Copy> Split<View<A>> for Deal {
    ghost use Rattle.ups_turn.specs.Plays.{kept_back, dealt};

    ghost left = { kept_back };

    ghost right = { dealt };
}

/// The join of the passes and the notes of two seats.
pub struct Both;

impl<A: Allocator + Copy> Join<View<A>> for Both {
    ghost use Rattle.ups_turn.specs.Plays.{joined_views, spent_view};

    ghost both = { joined_views };

    ghost spent = { spent_view };
}

/// The words and the slot, as all passes share them.
pub type DeskTable<M, A> = Shared<Option<Held<M, A>>, View<A>, Opening<M, A>, InTurn>;

/// The seat of a pass.
pub type PassSeat<M, A> = Seat<Option<Held<M, A>>, View<A>>;
