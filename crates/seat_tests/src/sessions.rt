//! Two sessions side by side on one desk, over memory: the first is held before it writes its second PDU until the
//! other is done. So a session that is held does not block another.
ghost use Rattle.std.specs.Prelude.{◌≡◌};

use crate::seats::{creation, enter, step};
use fixtures::vectors::{
    ACCEPTED, CREATE, CREATED, EVENT_ACCEPTED, EVENT_REPORT, EVENT_REPORTED, EVENT_REQUEST,
    EVENT_STATE, GET, GOT, GOT_STEP, RELEASE, RELEASED, REQUEST, STEP,
};
use fixtures::{bytes_of_all, title};
use std::alloc::Global;
use std::sync::Wait;
use std::sync::atomic::{AtomicU64, Ordering};
use std::test::Fail;
use std::thread::{Threads, join, yield_now};
use ups_assoc::Config;
use ups_dataset::DataSet;
use ups_life::{Peer, Request, Target};
use ups_manager::Manager;
use ups_pdu::Ae;
use ups_service::{Service, SharedService};
use ups_session::{CutReader, CutWriter, Gate, WatchedReader, WatchedWriter, deliver, serve};
use ups_turn::{Desk, Pass};

/// The progress of two sessions: each field is 1 once this has happened, and 0 before.
#[derive(Drop)]
struct Stage {
    /// The first session is about to write the PDU that is held.
    held: AtomicU64,
    /// The other session is done.
    done: AtomicU64,
}

/// The number of times a gate looks whether the other session has come far enough.
const LOOKS: u64 = 1_000_000;

/// The maximum number of PDUs in a session.
const TURNS: u64 = 100;

/// The maximum number of bytes that a session writes.
const ROOM: usize = 10_000;

/// A gate that holds one write until the other session has come far enough.
#[derive(Drop)]
struct HoldingGate<'a> {
    /// The number of PDUs still to be written before the one that is held.
    before: u64,
    /// Set once that PDU is about to be written.
    tells: &'a AtomicU64,
    /// What the gate then waits for.
    awaits: &'a AtomicU64,
}

/// Looks until a session has come far enough, or there were enough looks.
fn look(awaited: &AtomicU64) {
    for _ in 0..LOOKS {
        if awaited.load(Ordering::SeqCst) == 1 {
            return;
        }
        yield_now();
    }
}

impl<'a> Gate for HoldingGate<'a> {
    fn now(&mut self) -> u64 {
        0
    }

    fn before_write(&mut self) {
        if self.before == 0 {
            self.tells.store(1, Ordering::SeqCst);
            look(self.awaits);
        }
        self.before = self.before.wrapping_sub(1);
    }

    fn after_write(&mut self) {}
}

/// An A-ASSOCIATE-RQ for the UPS Pull SOP class, in Implicit VR Little Endian; the A-ASSOCIATE-AC that answers it is
/// [`ACCEPTED`].
const PULL_REQUEST: &str =
    "01 00 000000ad 0001 0000 \"UPSD\" 20*12 \"SCHED1\" 20*10 00*32 10 00 0015 \"1.2.840.10008.3.1.1.1\" 20 00 0037 01 000000 30 00 001a PULL 40 00 0011 \"1.2.840.10008.1.2\" 50 00 0011 51 00 0004 00004000 52 00 0005 \"1.2.3\"";

/// A C-FIND request, and its keys: the instance UIDs of the steps that begin on 2024-02-29 or later.
const FIND: &str =
    "04 00 0000005c 00000058 01 03 00000000 04000000 4a000000 00000200 1a000000 PULL 00000001 02000000 2000 00001001 02000000 0500 00000007 02000000 0000 00000008 02000000 0100 04 00 00000020 0000001c 01 02 08001800 00000000 40000540 0a000000 \"20240229-\" 20";

/// The response with the step 1.2.3.1.
const FOUND: &str =
    "04 00 0000005c 00000058 01 03 00000000 04000000 4a000000 00000200 1a000000 PULL 00000001 02000000 2080 00002001 02000000 0500 00000008 02000000 0100 00000009 02000000 00ff 04 00 0000002c 00000028 01 02 08001800 08000000 \"1.2.3.1\" 00 40000540 0e000000 \"20240229120000\"";

/// The last response.
const ALL_FOUND: &str =
    "04 00 0000005c 00000058 01 03 00000000 04000000 4a000000 00000200 1a000000 PULL 00000001 02000000 2080 00002001 02000000 0500 00000008 02000000 0101 00000009 02000000 0000";

/// What a peer sends in a session, and what is written to it.
#[derive(Drop)]
struct Talk {
    said: Vec<u8>,
    written: Vec<u8>,
}

impl Talk {
    fn new(rt: &impl AllocGlobal, said: &[&str], written: &[&str]) -> Result<Talk, Fail> {
        Ok(Talk {
            said: bytes_of_all(rt, said)?,
            written: bytes_of_all(rt, written)?,
        })
    }

    /// A peer creates the step 1.2.3.4.
    fn of_creation(rt: &impl AllocGlobal) -> Result<Talk, Fail> {
        Talk::new(
            rt,
            &[REQUEST, CREATE, STEP, RELEASE],
            &[ACCEPTED, CREATED, RELEASED],
        )
    }

    /// A peer gets the step 1.2.3.4.
    fn of_get(rt: &impl AllocGlobal) -> Result<Talk, Fail> {
        Talk::new(
            rt,
            &[REQUEST, GET, RELEASE],
            &[ACCEPTED, GOT, GOT_STEP, RELEASED],
        )
    }

    /// A peer finds only the step 1.2.3.1.
    fn of_find(rt: &impl AllocGlobal) -> Result<Talk, Fail> {
        Talk::new(
            rt,
            &[PULL_REQUEST, FIND, RELEASE],
            &[ACCEPTED, FOUND, ALL_FOUND, RELEASED],
        )
    }

    /// The watcher W1 accepts the report that the step 1.2.3.1 is canceled.
    fn of_delivery(rt: &impl AllocGlobal) -> Result<Talk, Fail> {
        Talk::new(
            rt,
            &[EVENT_ACCEPTED, EVENT_REPORTED, RELEASED],
            &[EVENT_REQUEST, EVENT_REPORT, EVENT_STATE, RELEASE],
        )
    }
}

/// What is sent in the two sessions.
#[derive(Drop)]
struct Talks {
    /// Whether the first session delivers reports to the watcher W1.
    delivers: bool,
    /// The talk of the first session, whose second PDU is held before it is written.
    one: Talk,
    /// The talk of the other session.
    other: Talk,
}

/// Serves a session over memory with a service, and returns whether it ends without a fault.
fn is_served<S: Service<Global>>(
    alloc: Global,
    service: &mut S,
    gate: &mut HoldingGate<'_>,
    said: &[u8],
    taken: &mut CutWriter<Global>,
) -> bool {
    let Some(ae) = Ae::of(b"UPSD") else {
        return false;
    };
    let mut reader = WatchedReader::new(CutReader::new(said, false));
    let mut writer = WatchedWriter::new(taken);
    let config = Config { ae, offset: 0 };
    serve(
        alloc,
        &mut reader,
        &mut writer,
        service,
        gate,
        &config,
        TURNS,
    )
    .is_ok()
}

/// Delivers reports to the watcher W1 over memory with a service, and returns whether the session ends without a fault.
fn is_delivered<S: Service<Global>>(
    alloc: Global,
    service: &mut S,
    gate: &mut HoldingGate<'_>,
    said: &[u8],
    taken: &mut CutWriter<Global>,
) -> bool {
    let (Some(ae), Some(watcher)) = (Ae::of(b"UPSD"), Ae::of(b"W1")) else {
        return false;
    };
    let mut reader = WatchedReader::new(CutReader::new(said, false));
    let mut writer = WatchedWriter::new(taken);
    let config = Config { ae, offset: 0 };
    deliver(
        alloc,
        &mut reader,
        &mut writer,
        service,
        gate,
        &config,
        watcher,
        TURNS,
    )
    .is_ok()
}

/// Runs the session that is held until the other is done, and returns whether it was held that long, and was as it
/// should be.
fn holds<S: Service<Global>>(alloc: Global, service: &mut S, stage: &Stage, talks: &Talks) -> bool {
    let mut gate = HoldingGate {
        before: 1,
        tells: &stage.held,
        awaits: &stage.done,
    };
    let mut taken = CutWriter::new(alloc, ROOM);
    let said = talks.one.said.as_slice();
    let is_good = if talks.delivers {
        is_delivered(alloc, service, &mut gate, said, &mut taken)
    } else {
        is_served(alloc, service, &mut gate, said, &mut taken)
    };
    let is_held = stage.done.load(Ordering::SeqCst) == 1;
    is_good && is_held && taken.written() == talks.one.written.as_slice()
}

/// Runs the other session, which writes nothing before the first is held, and returns whether it was as it should be.
fn goes_on<S: Service<Global>>(
    alloc: Global,
    service: &mut S,
    stage: &Stage,
    talks: &Talks,
) -> bool {
    let unheard = AtomicU64::new(0);
    let mut gate = HoldingGate {
        before: 0,
        tells: &unheard,
        awaits: &stage.held,
    };
    let mut taken = CutWriter::new(alloc, ROOM);
    let is_served = is_served(alloc, service, &mut gate, &talks.other.said, &mut taken);
    let is_done = is_served && taken.written() == talks.other.written.as_slice();
    if is_done {
        stage.done.store(1, Ordering::SeqCst);
    }
    is_done
}

/// Runs the session that is held, at a pass.
fn holds_by<M: SharedService<Global>, R: Wait>(
    rt: &R,
    alloc: Global,
    desk: &Desk<M, Global>,
    mut pass: Pass<M, Global>,
    stage: &Stage,
    talks: &Talks,
) -> bool
    requires here { pass.table ≡ desk.now.table }
{
    holds(alloc, &mut desk.at(rt, &mut pass), stage, talks)
}

/// Runs the other session, at another pass.
fn goes_on_by<M: SharedService<Global>, R: Wait>(
    rt: &R,
    alloc: Global,
    desk: &Desk<M, Global>,
    mut pass: Pass<M, Global>,
    stage: &Stage,
    talks: &Talks,
) -> bool
    requires here { pass.table ≡ desk.now.table }
{
    goes_on(alloc, &mut desk.at(rt, &mut pass), stage, talks)
}

/// Runs both sessions, each in its own thread.
fn side_by_side<R: Threads + Wait + Sync>(
    rt: &R,
    alloc: Global,
    desk: &Desk<Manager<Global>, Global>,
    one: Pass<Manager<Global>, Global>,
    two: Pass<Manager<Global>, Global>,
    stage: &Stage,
    talks: &Talks,
) -> (bool, bool)
    requires one { one.table ≡ desk.now.table }
    requires two { two.table ≡ desk.now.table }
{
    join(
        rt,
        || holds_by(rt, alloc, desk, one, stage, talks),
        || goes_on_by(rt, alloc, desk, two, stage, talks),
    )
}

/// Runs both sessions at a desk over what they share.
fn outcome_over<R: Threads + Wait + Sync>(
    rt: &R,
    alloc: Global,
    shared: Manager<Global>,
    stage: &Stage,
    talks: &Talks,
) -> Result<(bool, bool), Fail> {
    let Ok((desk, mut passes)) = Desk::open(alloc, shared, 2) else {
        return Err("not opened".into());
    };
    let Some(two) = passes.pop() else {
        return Err("no pass".into());
    };
    let Some(one) = passes.pop() else {
        return Err("no pass".into());
    };
    Ok(side_by_side(rt, alloc, &desk, one, two, stage, talks))
}

/// Enters the requests on the step 1.2.3.1 that come before: it is created and canceled, and W1 subscribes to it.
fn prepare(alloc: Global, manager: &mut Manager<Global>) -> Result<(), Fail> {
    let scheduler = title("SCHED1")?;
    let receiver = title("W1")?;
    let step = Some(step()?);
    enter(manager, scheduler, creation(alloc)?);
    let reasons = DataSet::new(alloc);
    enter(manager, scheduler, Request::AskCancel { step, reasons });
    let subscribe = Request::Subscribe {
        target: Target::Single(step),
        receiver,
        lock: false,
    };
    enter(manager, receiver, subscribe);
    Ok(())
}

/// Returns a manager with these requests.
fn prepared(alloc: Global) -> Result<Manager<Global>, Fail> {
    let watcher = Peer {
        ae: title("W1")?,
        lock: false,
    };
    let mut manager = Manager::new(alloc, &[watcher], 60, 0, 10)?;
    prepare(alloc, &mut manager)?;
    Ok(manager)
}

/// Returns whether the session that is held, and the other one, are as they should be, with such a manager.
fn outcome<R: Threads + Wait + Sync + AllocGlobal>(
    rt: &R,
    talks: &Talks,
) -> Result<(bool, bool), Fail> {
    let manager = prepared(rt.alloc())?;
    let stage = Stage {
        held: AtomicU64::new(0),
        done: AtomicU64::new(0),
    };
    outcome_over(rt, rt.alloc(), manager, &stage, talks)
}

#[test]
fn a_step_is_got_while_the_response_to_its_creation_is_held(rt: HostRuntime) -> Result<(), Fail> {
    let talks = Talks {
        delivers: false,
        one: Talk::of_creation(&rt)?,
        other: Talk::of_get(&rt)?,
    };
    assert_eq!(rt; outcome(&rt, &talks)?, (true, true));
    Ok(())
}

#[test]
fn a_step_is_created_while_the_first_answer_to_a_query_is_held(
    rt: HostRuntime,
) -> Result<(), Fail> {
    let talks = Talks {
        delivers: false,
        one: Talk::of_find(&rt)?,
        other: Talk::of_creation(&rt)?,
    };
    assert_eq!(rt; outcome(&rt, &talks)?, (true, true));
    Ok(())
}

#[test]
fn a_step_is_created_while_a_report_is_held(rt: HostRuntime) -> Result<(), Fail> {
    let talks = Talks {
        delivers: true,
        one: Talk::of_delivery(&rt)?,
        other: Talk::of_creation(&rt)?,
    };
    assert_eq!(rt; outcome(&rt, &talks)?, (true, true));
    Ok(())
}
