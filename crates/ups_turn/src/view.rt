//! What a seat of the desk's table knows, and what the table is told once. A view is never made: only proofs refer to
//! it.

use crate::held::Held;
use std::alloc::Allocator;
use std::collections::LinkedList;
use std::marker::Model;
use std::snapshot::Snapshot;
use ups_life::{Configuration, Entry};
use ups_service::SharedService;

/// The state with which the desk opens: the manager at that time, and the number of passes. A contract sees it as these
/// two.
#[derive(Drop)]
pub struct Opening<M: SharedService<A>, A: Allocator + Copy> {
    pub manager: Snapshot<Held<M, A>>,
    pub seats: u64,
}

impl<M: SharedService<A>, A: Allocator + Copy> Model for Opening<M, A> {
    ghost use Rattle.ups_turn.specs.Opening.{Opening};

    ghost Value = { Opening A };

    ghost use Rattle.std.specs.Coded.{codes};
    ghost use Rattle.ups_dataset.specs.Code.{set_code};

    ghost coded = { Prim.hlevel (set_code, codes) };

    ghost view = { λ o. record { manager = o.manager.value; seats = o.seats } };
}

/// A pass as its seat knows it.
pub struct Part<A: Allocator + Copy> {
    pub number: u64,
    /// The history that it has seen, oldest entry first.
    pub seen: LinkedList<Entry<A>>,
}

/// What a seat knows.
pub struct View<A: Allocator + Copy> {
    pub settings: Configuration<A>,
    /// The number of tickets that its passes have drawn.
    pub draws: u64,
    /// The ticket with which it waits or has the turn.
    pub ticket: Option<u64>,
    pub turn: bool,
    /// The passes that it represents.
    pub parts: LinkedList<Part<A>>,
    /// Histories that passes of other seats have seen.
    pub notes: LinkedList<LinkedList<Entry<A>>>,
}
