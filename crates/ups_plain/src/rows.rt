//! Answers to questions about a history, found by walking it: plain and slow.

ghost use Rattle.std.specs.Prelude.{◌≡◌, ◌≤◌, ◌||◌, ◌∷◌, ◌++◌, [], length, take, map, filter, All, IfErr, OnOk, MatchResult, true, if◌then◌else◌};
ghost use Rattle.ups_dataset.specs.Data.{answer};
ghost use Rattle.ups_match.specs.Matching.{is_match};
ghost use Rattle.ups_life.specs.Settings.{IsMoment, IsOffset};
ghost use Rattle.ups_life.specs.Steps.{past, is_on, uses_uid, used, row, row_of, row_after, given, nothing};
ghost use Rattle.ups_life.specs.History.{repeats};
ghost use Rattle.ups_life.specs.Worklist.{worklist};
ghost use Rattle.ups_life.specs.Telling.{IsWellFormed};
ghost use Rattle.ups_life.specs.Deep.{ChangeFails, WalkFails};

use crate::walking::plain_held;
use std::alloc::{AllocError, Allocator};
use ups_cycle::StepState;
use ups_dataset::DataSet;
use ups_life::{ChangeFault, Configuration, Entry, Request, Row, Sets, StepUid};
use ups_match::{Keys, Matcher, Probe};
use ups_rules::change;

/// Returns whether a request creates a step with this UID, or reserves it.
fn uses_uid<A: Allocator + Copy>(uid: &StepUid, request: &Request<A>) -> bool
    ensures { result ≡ uses_uid uid.now request.now }
{
    match request {
        Request::Create { step, .. } | Request::Reserve { step } => {
            step.as_bytes() == uid.as_bytes()
        }
        _ => false,
    }
}

/// Returns whether this UID was used before a request, or is used by it.
fn used_after<A: Allocator + Copy>(uid: &StepUid, before: bool, request: &Request<A>) -> bool
    ensures { result ≡ (uses_uid uid.now request.now || before) }
{
    uses_uid(uid, request) || before
}

/// Returns whether a step with this UID was created, or the UID reserved.
pub fn used<A: Allocator + Copy>(history: &[Entry<A>], uid: StepUid) -> bool
    ensures { result ≡ used (past history.now) uid }
{
    let mut found = false;
    for entry in history {
        found = used_after(&uid, found, &entry.request);
    }
    found
}

/// Returns whether a request creates a step with a UID that is already used.
pub fn repeats<A: Allocator + Copy>(history: &[Entry<A>], request: &Request<A>) -> bool
    ensures { result ≡ repeats (past history.now) request.now }
{
    match request {
        Request::Create { step, .. } => used(history, *step),
        _ => false,
    }
}

/// Returns whether a request is on this step.
pub(crate) fn is_on<A: Allocator + Copy>(uid: StepUid, request: &Request<A>) -> bool
    ensures { result ≡ is_on uid request.now }
{
    match request.step() {
        Some(step) => step.as_bytes() == uid.as_bytes(),
        None => false,
    }
}

/// What is held of a step after the first `count` entries of a history.
#[derive(Drop)]
pub(crate) struct RowWalk<A: Allocator + Copy> {
    pub(crate) count: usize,
    pub(crate) row: Row<A>,
}

/// Returns what is held of a step before any entry.
pub(crate) fn unwalked<A: Allocator + Copy>(alloc: A) -> RowWalk<A>
    ensures count { result.count ≡ 0 }
    ensures row { result.row ≡ nothing }
{
    let row = Row {
        attributes: DataSet::new(alloc),
        state: StepState::Scheduled,
        transaction: None,
        final_at: None,
    };
    RowWalk { count: 0, row }
}

/// Updates what is held of a step after an entry, which may be on another step.
///
/// Errors: those of `change`; what is held stays as it was.
fn take_up<A: Allocator + Copy>(
    alloc: A,
    configuration: &Configuration<A>,
    row: &mut Row<A>,
    entry: &Entry<A>,
    step: StepUid,
) -> Result<(), ChangeFault>
    requires moment { IsMoment entry.now.moment }
    requires offset { IsOffset configuration.now.offset }
    ensures row { MatchResult result (λ done. row.new ≡ (if is_on step entry.now.request then row_after configuration.now.offset entry.now.moment row.old entry.now.request else row.old)) (λ fault. row.new ≡ row.old) }
    ensures named { IfErr result (λ fault. is_on step entry.now.request ≡ true) }
    ensures deep { IfErr result (ChangeFails (given configuration.now.offset entry.now.moment row.old.state entry.now.request)) }
    ensures well_formed { IsWellFormed entry.now.request }
{
    entry.request.is_well_formed();
    if is_on(step, &entry.request) {
        let offset = configuration.offset();
        let after = change(alloc, Some(&*row), &entry.request, entry.moment, offset)?;
        *row = after;
    }
    Ok(())
}

/// Walks on to what is held of a step after the first `count` of these entries.
///
/// Errors: Memory; TooDeep, only if the entries are not a legal history.
pub(crate) fn go_on<A: Allocator + Copy>(
    alloc: A,
    configuration: &Configuration<A>,
    walk: &mut RowWalk<A>,
    entries: &[Entry<A>],
    count: usize,
    step: StepUid,
) -> Result<(), ChangeFault>
    requires row { walk.old.row ≡ row_of configuration.now (past (take walk.old.count entries.now)) step }
    requires earlier { walk.old.count ≤ count }
    requires within { count ≤ length entries.now }
    requires moments { All (λ e. IsMoment e.moment) entries.now }
    requires offset { IsOffset configuration.now.offset }
    ensures row { walk.new.row ≡ row_of configuration.now (past (take walk.new.count entries.now)) step }
    ensures earlier { walk.new.count ≤ count }
    ensures there { OnOk result (walk.new.count ≡ count) }
    ensures memory { IfErr result (WalkFails configuration.now (past entries.now)) }
{
    for place in walk.count..count {
        take_up(alloc, configuration, &mut walk.row, &entries[place], step)?;
        walk.count = place + 1;
    }
    Ok(())
}

/// Returns the attributes of a step, by applying each entry on it in turn.
///
/// Errors: those of `go_on`.
pub(crate) fn row<A: Allocator + Copy>(
    alloc: A,
    configuration: &Configuration<A>,
    entries: &[Entry<A>],
    step: StepUid,
) -> Result<DataSet<A>, ChangeFault>
    requires moments { All (λ e. IsMoment e.moment) entries.now }
    requires offset { IsOffset configuration.now.offset }
    ensures { MatchResult result (λ set. set ≡ row configuration.now (past entries.now) step) (WalkFails configuration.now (past entries.now)) }
{
    let mut walk = unwalked(alloc);
    go_on(
        alloc,
        configuration,
        &mut walk,
        entries,
        entries.len(),
        step,
    )?;
    Ok(walk.row.attributes)
}

/// Adds the answer of a row to the keys, if it matches them.
fn add_answer<A: Allocator + Copy>(
    sets: &mut Sets<A>,
    keys: &Keys<A>,
    row: &DataSet<A>,
) -> Result<(), AllocError>
    ensures { OnOk result (sets.new ≡ sets.old ++ map (λ r. answer r keys.now.attributes) (filter (is_match keys.now) (row.now ∷ []))) }
{
    let mut probe = Probe::new();
    if probe.matches(keys, row) {
        sets.push(row.answer(keys.attributes())?)?;
    }
    Ok(())
}

/// Returns the worklist (PS3.4 sections CC.2.8 and C.4.1): for each step that matches the keys, in order of creation,
/// the attributes of the keys. It is slow: it walks the entries again for each step.
///
/// # Errors
///
/// `Memory` if memory runs out; `TooDeep`, only if the entries are not a legal history.
pub fn plain_find<A: Allocator + Copy>(
    alloc: A,
    configuration: &Configuration<A>,
    entries: &[Entry<A>],
    keys: &Keys<A>,
) -> Result<Sets<A>, ChangeFault>
    requires moments { All (λ e. IsMoment e.moment) entries.now }
    requires offset { IsOffset configuration.now.offset }
    ensures { MatchResult result (λ sets. sets ≡ worklist configuration.now (past entries.now) keys.now) (WalkFails configuration.now (past entries.now)) }
{
    let mut sets = Sets::new(alloc);
    let steps = plain_held(alloc, configuration, entries)?;
    for step in &steps {
        let row = row(alloc, configuration, entries, *step)?;
        add_answer(&mut sets, keys, &row)?;
    }
    Ok(sets)
}
