use fixtures::rows::{check, check_same, cut};
use fixtures::{Refusing, add_bytes, described, title, uid};
use std::alloc::{Allocator, Global};
use std::test::Fail;
use ups_cycle::Status;
use ups_dataset::DataSet;
use ups_life::*;
use ups_pdu::Uid;
use ups_plain::*;
use ups_rules::*;

mod changing;
mod deciding;
mod reading;
mod words;
mod worklist;

/// The maximum number of growths that a test refuses in turn.
const GROWTHS: u64 = 100;

/// The statuses in the order of their numbers.
const STATUSES: [Status; 32] = [
    Status::Success,
    Status::AttributesNotSupported,
    Status::InvalidAttributeValue,
    Status::ProcessingFailure,
    Status::DuplicateSopInstance,
    Status::NoSuchArgument,
    Status::InvalidArgumentValue,
    Status::InvalidObjectInstance,
    Status::NoSuchSopClass,
    Status::MissingAttribute,
    Status::MissingAttributeValue,
    Status::NoSuchActionType,
    Status::UnrecognizedOperation,
    Status::ResourceLimitation,
    Status::OutOfResources,
    Status::IdentifierMismatch,
    Status::DeletionLockNotGranted,
    Status::AlreadyCanceled,
    Status::AlreadyCompleted,
    Status::UnableToProcess,
    Status::NoLongerUpdatable,
    Status::WrongTransactionUid,
    Status::AlreadyInProgress,
    Status::ScheduledByCreateAlone,
    Status::FinalStateNotMet,
    Status::UnknownInstance,
    Status::UnknownReceivingAe,
    Status::NotScheduled,
    Status::NotInProgress,
    Status::TooLateToCancel,
    Status::ActionNotAppropriate,
    Status::Pending,
];

/// The names and numbers of the statuses.
const NUMBERS: &str = "\
Success 0000
AttributesNotSupported 0001
InvalidAttributeValue 0106
ProcessingFailure 0110
DuplicateSopInstance 0111
NoSuchArgument 0114
InvalidArgumentValue 0115
InvalidObjectInstance 0117
NoSuchSopClass 0118
MissingAttribute 0120
MissingAttributeValue 0121
NoSuchActionType 0123
UnrecognizedOperation 0211
ResourceLimitation 0213
OutOfResources A700
IdentifierMismatch A900
DeletionLockNotGranted B301
AlreadyCanceled B304
AlreadyCompleted B306
UnableToProcess C000
NoLongerUpdatable C300
WrongTransactionUid C301
AlreadyInProgress C302
ScheduledByCreateAlone C303
FinalStateNotMet C304
UnknownInstance C307
UnknownReceivingAe C308
NotScheduled C309
NotInProgress C310
TooLateToCancel C311
ActionNotAppropriate C314
Pending FF00
";

/// Adds the name and the number of a status.
fn add_status(text: &mut String, status: Status) -> Result<(), Fail> {
    Ok(write!(text, "{status:?} {:04X}\n", status.code())?)
}

/// Returns the names and the numbers of the statuses.
fn numbers_text(rt: &impl AllocGlobal) -> Result<String, Fail> {
    let mut text = String::new(rt.alloc());
    for status in STATUSES {
        add_status(&mut text, status)?;
    }
    Ok(text)
}

#[test]
fn each_status_has_its_number(rt: HostRuntime) -> Result<(), Fail> {
    check_same("numbers", numbers_text(&rt)?.as_str(), NUMBERS)
}

/// Adds a data set as text.
fn add_set<A: Allocator + Copy>(
    rt: &impl AllocGlobal,
    text: &mut String,
    set: &DataSet<A>,
) -> Result<(), Fail> {
    Ok(text.push_str(described(set, rt)?.as_str())?)
}

/// Returns a peer with this title.
fn peer(ae: &str, lock: bool) -> Result<Peer, Fail> {
    Ok(Peer {
        ae: title(ae)?,
        lock,
    })
}

/// Returns a configuration with two peers, of which the first may lock steps.
fn configured(alloc: Global) -> Result<Configuration<Global>, Fail> {
    let mut peers = Vec::new(alloc);
    peers.push(peer("WATCH1", true)?)?;
    peers.push(peer("WATCH2", false)?)?;
    Ok(Configuration::new(peers, 60, -300, 1_000_000))
}

/// Adds a peer, and whether it may lock steps.
fn add_peer(text: &mut String, peer: &Peer) -> Result<(), Fail> {
    add_bytes(text, peer.ae.as_bytes())?;
    Ok(text.push_str(if peer.lock { " locks " } else { " " })?)
}

/// Adds the numbers of a configuration.
fn add_numbers(text: &mut String, configuration: &Configuration<Global>) -> Result<(), Fail> {
    let (keep, offset) = (configuration.keep(), configuration.offset());
    write!(text, "keep {keep} offset {offset}")?;
    Ok(write!(text, " limit {}", configuration.limit())?)
}

/// Returns a configuration as text.
fn configured_text(
    rt: &impl AllocGlobal,
    configuration: &Configuration<Global>,
) -> Result<String, Fail> {
    let mut text = String::new(rt.alloc());
    for peer in configuration.peers() {
        add_peer(&mut text, peer)?;
    }
    add_numbers(&mut text, configuration)?;
    Ok(text)
}

#[test]
fn a_configuration_has_what_it_was_given(rt: HostRuntime) -> Result<(), Fail> {
    let configuration = configured(rt.alloc())?;
    check_same(
        "configured",
        configured_text(&rt, &configuration)?.as_str(),
        "WATCH1 locks WATCH2 keep 60 offset -300 limit 1000000",
    )
}

/// Returns whether the UID of a step is this one, and not another.
fn is_only(step: StepUid, uid: Uid) -> Result<bool, Fail> {
    let other = Uid::of(b"1.2.3.2").ok_or("a UID")?;
    Ok(step.uid() == uid && StepUid::of(uid) == Some(step) && StepUid::of(other) != Some(step))
}

/// Returns whether a UID is that of a step, and not that of another step.
fn is_step(text: &str) -> Result<bool, Fail> {
    let uid = uid(text)?;
    match StepUid::of(uid) {
        Some(step) => Ok(step.as_bytes() == text.as_bytes() && is_only(step, uid)?),
        None => Ok(false),
    }
}

/// UIDs, and whether each is that of a step.
const UIDS: &str = "\
1.2.3.1 -> yes
1.2.840.10008.5.1.4.34.5 -> no
1.2.840.10008.5.1.4.34.5.1 -> no
1.2.840.10008.5.1.4.34.5.2 -> yes";

/// Returns whether a row says if its UID is that of a step.
fn is_step_so(row: &str) -> Result<bool, Fail> {
    let (uid, wanted) = cut(row, " -> ")?;
    Ok(wanted == if is_step(uid)? { "yes" } else { "no" })
}

#[test]
fn a_step_has_a_uid_of_its_own() -> Result<(), Fail> {
    for row in UIDS.lines() {
        check(row, is_step_so(row)?)?;
    }
    Ok(())
}

#[test]
fn the_laws_are_of_each_allocator() {
    laws::checked_attributes_are_those_defined();
    laws::limits_are_those_defined();
    laws::a_step_is_claimed_once::<Global>();
    laws::a_claim_stays::<Global>();
    laws::only_the_holder_sets::<Global>();
    laws::only_the_holder_finishes::<Global>();
    laws::a_transaction_uid_is_never_told::<Global>();
    laws::a_removed_step_stays_away::<Global>();
    laws::a_locked_step_stays::<Global>();
    laws::an_unfinished_step_stays::<Global>();
    laws::only_a_final_step_is_removed::<Global>();
}
