//! The effect of an accepted request on the index of the held steps.

ghost use Rattle.std.specs.Prelude.{◌≡◌, OnOk};
ghost use Rattle.ups_manager.specs.Indexing.{after_change, has_room, without_steps};
ghost use Rattle.ups_keep.specs.Waits.{steps_of};

use std::alloc::{AllocError, Allocator};
use ups_index::{Index, Values};
use ups_keep::Final;
use ups_life::StepUid;

/// The effect of an accepted request on the index.
#[derive(Drop)]
pub(crate) enum IndexChange<A: Allocator + Copy> {
    /// The values by which a step is found from now on.
    Put { step: StepUid, values: Values<A> },
    /// The removal of the steps that the request's plan removes.
    Remove,
    /// No effect.
    Nothing,
}

/// Makes room for a change of the index.
///
/// Errors: if memory runs out. The index then has the same steps as before.
pub(crate) fn make_index_room<A: Allocator + Copy>(
    index: &mut Index<A>,
    change: &IndexChange<A>,
) -> Result<(), AllocError>
    ensures room { OnOk result (has_room index.new.spare change.now) }
    ensures steps { index.new.steps ≡ index.old.steps }
    ensures offset { index.new.offset ≡ index.old.offset }
{
    match change {
        IndexChange::Put { values, .. } => index.reserve(values),
        IndexChange::Remove | IndexChange::Nothing => Ok(()),
    }
}

/// Removes these steps from the index.
fn remove_each<A: Allocator + Copy>(index: &mut Index<A>, removed: &[Final])
    ensures steps { index.new.steps ≡ without_steps (steps_of removed.now) index.old.steps }
    ensures offset { index.new.offset ≡ index.old.offset }
{
    for step in removed {
        index.remove(step.step);
    }
}

/// Carries out a change of the index, for which there is room; `removed` are the steps that the request's plan removes.
pub(crate) fn change_index<A: Allocator + Copy>(
    index: &mut Index<A>,
    change: IndexChange<A>,
    removed: &[Final],
)
    requires { has_room index.old.spare change }
    ensures steps { index.new.steps ≡ after_change change (steps_of removed.now) index.old.steps }
    ensures offset { index.new.offset ≡ index.old.offset }
{
    match change {
        IndexChange::Put { step, values } => index.put(step, values),
        IndexChange::Remove => remove_each(index, removed),
        IndexChange::Nothing => {}
    }
}
