//! Answers a call by the history, and enters it if it is accepted.

ghost use Rattle.std.specs.Prelude.{◌≡◌, ◌<◌, ◌≤◌, ◌++◌, length, IfOk, OnOk, IfErr, MatchResult};
ghost use Rattle.ups_life.specs.Settings.{IsMoment};
ghost use Rattle.ups_life.specs.declared.request.Ask.TheVariants.{Do};
ghost use Rattle.ups_life.specs.Steps.{past};
ghost use Rattle.ups_manager.specs.Deciding.{IsDecided, IsRefused};
ghost use Rattle.ups_manager.specs.Indexing.{IsIndexed};
ghost use Rattle.ups_manager.specs.Kept.{ManagerStands, Remembers};
ghost use Rattle.ups_manager.specs.Room.{IsFullFor, most_for};
ghost use Rattle.ups_service.specs.Law.{Answers, SmallReply, entered};

use crate::deciding::{Decision, decide};
use crate::entry::enter;
use crate::left_memory::LeftMemory;
use crate::submitting::{is_full, is_memory_full};
use std::alloc::Allocator;
use ups_cycle::Status;
use ups_history::History;
use ups_index::Index;
use ups_life::{Configuration, Entry, Reply};
use ups_tables::Tables;

/// Returns the reply that refuses a call where the history, or the memory for it, is full: no call is refused in this way
/// while there is room.
#[inline(never)]
fn refuse_when_full<A: Allocator + Copy>(
    alloc: A,
    configuration: &Configuration<A>,
    history: &History<A>,
    tables: &Tables<A>,
    call: &Entry<A>,
) -> Result<Decision<A>, Reply<A>>
    requires moment { IsMoment call.now.moment }
    requires stands { ManagerStands configuration.now history.now.entries tables.now }
    requires full { IsFullFor configuration.now history.now call.now.request }
    ensures { MatchResult result (λ decision. ⊥) (IsRefused configuration.now history.now.entries call.now) }
{
    match decide(alloc, configuration, history, tables, call) {
        Ok(_) => Err(Reply::Status(Status::ResourceLimitation)),
        Err(reply) => Err(reply),
    }
}

/// Returns the decision about a call that is accepted, if the history has room for it, and fewer than `most` entries are
/// in memory.
///
/// Errors: the reply that refuses the call, or that says that the history or the memory for it is full, or that memory
/// ran out.
fn decide_with_room<A: Allocator + Copy>(
    alloc: A,
    configuration: &Configuration<A>,
    history: &History<A>,
    tables: &Tables<A>,
    call: &Entry<A>,
    most: u64,
) -> Result<Decision<A>, Reply<A>>
    requires moment { IsMoment call.now.moment }
    requires stands { ManagerStands configuration.now history.now.entries tables.now }
    requires most { most_for call.now.request ≤ most }
    ensures decided { IfOk result (IsDecided configuration.now history.now.entries tables.now call.now) }
    ensures room { OnOk result (length history.now.entries < configuration.now.limit) }
    ensures refused { IfErr result (IsRefused configuration.now history.now.entries call.now) }
{
    if is_full(configuration, history) || is_memory_full(history, most) {
        return refuse_when_full(alloc, configuration, history, tables, call);
    }
    decide(alloc, configuration, history, tables, call)
}

/// Answers a call by the history, and enters it there, in the tables and in the index if it is accepted. With `most`
/// entries in memory none is.
pub(crate) fn answer_call<A: Allocator + Copy>(
    alloc: A,
    configuration: &Configuration<A>,
    reserve: &mut LeftMemory<A>,
    history: &mut History<A>,
    tables: &mut Tables<A>,
    index: &mut Index<A>,
    call: Entry<A>,
    most: u64,
) -> Reply<A>
    requires moment { IsMoment call.moment }
    requires stands { ManagerStands configuration.now history.old.entries tables.old }
    requires indexed { IsIndexed configuration.now (past history.old.entries) index.old }
    requires remembers { Remembers configuration.now history.old }
    requires most { most_for call.request ≤ most }
    ensures answer { Answers configuration.now history.old.entries call.caller call.ae call.moment (Do call.request) result }
    ensures history { history.new.entries ≡ history.old.entries ++ entered call.caller call.ae call.moment (Do call.request) result }
    ensures small { SmallReply result }
    ensures stands { ManagerStands configuration.now history.new.entries tables.new }
    ensures indexed { IsIndexed configuration.now (past history.new.entries) index.new }
    ensures remembers { Remembers configuration.now history.new }
    ensures first { history.new.first ≡ history.old.first }
{
    match decide_with_room(alloc, configuration, history, tables, &call, most) {
        Ok(decision) => match enter(
            configuration,
            reserve,
            history,
            tables,
            index,
            call,
            decision,
        ) {
            Ok(reply) => reply,
            Err(_) => Reply::Status(Status::ResourceLimitation),
        },
        Err(reply) => reply,
    }
}
