use fixtures::rows::{check_same, cut_twice, number};
use fixtures::words::message_of;
use fixtures::{title, uid};
use std::alloc::{Allocator, Global};
use std::fmt::Write;
use std::str;
use std::test::Fail;
use ups_compact::{KeptSteps, pays, reservation};
use ups_life::{Ask, Entry, MAX_MOMENT, MAX_PEERS, Peer, Reply, Request, StepUid, read_request};
use ups_manager::*;

/// A day, with a request in each line: who asks and when, in seconds, and what, as in `fixtures::words`; or an
/// acknowledgement, a sweep, or the reservation of a UID.
///
/// Of three steps the first is claimed and goes on, the second is canceled and removed, and the third is new. The first
/// watcher has acknowledged three of its events, the second all of its events, and the third has none.
const DAY: &str = "\
W1 0 3 global 00741234=W1 00741230=FALSE
RIS 10 create 1.2.3.1 B
RIS 20 create 1.2.3.2 B
W1 25 ack 2
W2 26 3 1.2.3.1 00741234=W2 00741230=TRUE
W2 27 3 1.2.3.2 00741234=W2 00741230=FALSE
CAD 30 1 1.2.3.1 00741000=IN_PROGRESS 00081195=2.1
CAD 40 set 1.2.3.1 00741002=[00741004=50] 00081195=2.1
DOC 120 2 1.2.3.2 00741238=stop
W2 130 ack 6
RIS 150 create 1.2.3.3 B
RIS 200 sweep
W1 210 ack 3";

/// What is left of the day, and how many entries that is of how many.
const LEFT: &str = "\
W1 0 3 global 00741234=W1 00741230=FALSE
RIS 10 create 1.2.3.1 B
W2 26 3 1.2.3.1 00741234=W2 00741230=TRUE
CAD 30 1 1.2.3.1 00741000=IN_PROGRESS 00081195=2.1
CAD 40 set 1.2.3.1 00741002=[00741004=50] 00081195=2.1
RIS 150 create 1.2.3.3 B
6 of 13";

/// What remains of the entries that go: the moment of each reservation and the UID that it reserves.
const RESERVED: &str = "20 1.2.3.2\n";

/// What is left of the day, with the UID of the second step reserved where the step was created.
const LEFT_RESERVED: &str = "\
W1 0 3 global 00741234=W1 00741230=FALSE
RIS 10 create 1.2.3.1 B
RIS 20 reserve 1.2.3.2
W2 26 3 1.2.3.1 00741234=W2 00741230=TRUE
CAD 30 1 1.2.3.1 00741000=IN_PROGRESS 00081195=2.1
CAD 40 set 1.2.3.1 00741002=[00741004=50] 00081195=2.1
RIS 150 create 1.2.3.3 B";

/// The peers; the first two may lock steps.
const PEERS: [(&str, bool); 3] = [("W1", true), ("W2", true), ("W3", false)];

/// How many entries stay of how many, and whether a compaction pays.
const PAYS: &str = "\
0 of 0: no
0 of 1: yes
1 of 2: no
2 of 4: no
2 of 5: yes
6 of 13: yes
13 of 13: no";

/// Returns the request of a text.
fn request_of<A: Allocator + Copy>(alloc: A, text: &str) -> Result<Request<A>, Fail> {
    if text == "sweep" {
        return Ok(Request::Sweep);
    }
    if let Some(upto) = text.strip_prefix("ack ") {
        let upto = number(upto)?;
        return Ok(Request::Ack { upto });
    }
    if let Some(step) = text.strip_prefix("reserve ") {
        let step = StepUid::of(uid(step)?).ok_or("the UID of a step")?;
        return Ok(Request::Reserve { step });
    }
    let (operation, set) = message_of(alloc, text)?;
    match read_request(alloc, &operation, set, 0) {
        Ok(Ask::Do(request)) => Ok(request),
        _ => Err("no request".into()),
    }
}

/// Returns the entry of a line.
fn entry_of<A: Allocator + Copy>(alloc: A, line: &str) -> Result<Entry<A>, Fail> {
    let (ae, moment, text) = cut_twice(line, " ", " ")?;
    let (ae, moment) = (title(ae)?, number(moment)?);
    let request = request_of(alloc, text)?;
    Ok(Entry {
        caller: 0,
        ae,
        moment,
        request,
    })
}

/// Submits what a line asks for.
fn submit(manager: &mut Manager<Global>, line: &str, alloc: Global) -> Result<Reply<Global>, Fail> {
    let entry = entry_of(alloc, line)?;
    if entry.moment > MAX_MOMENT {
        return Err("no moment".into());
    }
    Ok(manager.submit(entry))
}

/// Enters what each line asks for.
fn enter_all(manager: &mut Manager<Global>, lines: &str, alloc: Global) -> Result<(), Fail> {
    for line in lines.lines() {
        let entries = manager.history().len();
        submit(manager, line, alloc)?;
        if manager.history().len() <= entries {
            return Err(line.into());
        }
    }
    Ok(())
}

/// Returns the peers.
fn peers_of(alloc: Global) -> Result<Vec<Peer>, Fail> {
    let mut peers = Vec::new(alloc);
    for (name, lock) in PEERS {
        let ae = title(name)?;
        peers.push(Peer { ae, lock })?;
    }
    Ok(peers)
}

/// Returns a manager with these peers, and no history.
fn managed(alloc: Global, peers: &[Peer]) -> Result<Manager<Global>, Fail> {
    if peers.len() > MAX_PEERS {
        return Err("too many peers".into());
    }
    Ok(Manager::new(alloc, peers, 60, 0, 100)?)
}

/// Returns a manager with the peers, and no history.
fn manager_of(alloc: Global) -> Result<Manager<Global>, Fail> {
    let peers = peers_of(alloc)?;
    managed(alloc, peers.as_slice())
}

/// Returns the steps held, as a compact history keeps them.
fn kept_by(manager: &Manager<Global>, alloc: Global) -> Result<KeptSteps<Global>, Fail> {
    Ok(KeptSteps::of(alloc, manager.held()?)?)
}

/// Returns the lines whose requests stay.
fn lines_left(alloc: Global, kept: &KeptSteps<Global>, lines: &str) -> Result<String, Fail> {
    let mut left = String::new(alloc);
    for line in lines.lines() {
        let entry = entry_of(alloc, line)?;
        if kept.is_left(&entry.request) {
            left.push_str(line)?;
            left.push('\n')?;
        }
    }
    Ok(left)
}

/// Returns which lines stay, and how many of all entries do.
fn left_by(
    alloc: Global,
    kept: &KeptSteps<Global>,
    history: &[Entry<Global>],
) -> Result<String, Fail> {
    let mut text = lines_left(alloc, kept, DAY)?;
    let count = kept.count_left(history);
    write!(text, "{count} of {}", history.len())?;
    Ok(text)
}

/// Enters the day, and fails if what is left of it is wrong.
fn check_left(manager: &mut Manager<Global>, alloc: Global) -> Result<(), Fail> {
    enter_all(manager, DAY, alloc)?;
    let kept = kept_by(manager, alloc)?;
    let found = left_by(alloc, &kept, manager.history())?;
    check_same("left", found.as_str(), LEFT)
}

#[test]
fn what_is_about_a_removed_step_goes(rt: HostRuntime) -> Result<(), Fail> {
    let mut manager = manager_of(rt.alloc())?;
    check_left(&mut manager, rt.alloc())
}

/// Returns the UID that a request reserves.
fn reserved_uid<A: Allocator + Copy>(request: &Request<A>) -> Result<StepUid, Fail> {
    match request {
        Request::Reserve { step } => Ok(*step),
        _ => Err("no reservation".into()),
    }
}

/// Adds what remains of an entry, if anything does: the moment of the reservation and its UID.
fn add_reserved(text: &mut String, entry: &Entry<Global>) -> Result<(), Fail> {
    let Some(reserved) = reservation(entry) else {
        return Ok(());
    };
    let step = reserved_uid(&reserved.request)?;
    let uid = str::from_utf8(step.as_bytes()).ok().ok_or("a text")?;
    writeln!(text, "{} {uid}", reserved.moment)?;
    Ok(())
}

/// Returns what remains of the entries that go.
fn reserved_by(alloc: Global, kept: &KeptSteps<Global>, lines: &str) -> Result<String, Fail> {
    let mut reserved = String::new(alloc);
    for line in lines.lines() {
        let entry = entry_of(alloc, line)?;
        if !kept.is_left(&entry.request) {
            add_reserved(&mut reserved, &entry)?;
        }
    }
    Ok(reserved)
}

/// Enters the day, and fails if what remains of the entries that go is wrong.
fn check_reserved(manager: &mut Manager<Global>, alloc: Global) -> Result<(), Fail> {
    enter_all(manager, DAY, alloc)?;
    let kept = kept_by(manager, alloc)?;
    let found = reserved_by(alloc, &kept, DAY)?;
    check_same("reserved", found.as_str(), RESERVED)
}

#[test]
fn of_a_creation_that_goes_the_reservation_of_its_uid_remains(rt: HostRuntime) -> Result<(), Fail> {
    let mut manager = manager_of(rt.alloc())?;
    check_reserved(&mut manager, rt.alloc())
}

/// Enters lines, and returns the number of the status when the removed step is created then.
fn created_again(alloc: Global, manager: &mut Manager<Global>, lines: &str) -> Result<u16, Fail> {
    enter_all(manager, lines, alloc)?;
    match submit(manager, "RIS 400 create 1.2.3.2 B", alloc)? {
        Reply::Status(status) => Ok(status.code()),
        _ => Err("no status".into()),
    }
}

/// The same with a manager without history.
fn created_after(alloc: Global, lines: &str) -> Result<u16, Fail> {
    let mut manager = manager_of(alloc)?;
    created_again(alloc, &mut manager, lines)
}

#[test]
fn a_reserved_uid_stays_used(rt: HostRuntime) -> Result<(), Fail> {
    assert_eq!(rt; created_after(rt.alloc(), DAY)?, 0x0111);
    assert_eq!(rt; created_after(rt.alloc(), LEFT_RESERVED)?, 0x0111);
    Ok(())
}

/// Returns whether a compaction pays as a row says.
fn is_so(row: &str) -> Result<bool, Fail> {
    let (left, all, says) = cut_twice(row, " of ", ": ")?;
    let (left, all) = (left.parse::<usize>()?, all.parse::<usize>()?);
    Ok(pays(left, all) == (says == "yes"))
}

#[test]
fn a_compaction_pays_where_fewer_entries_stay_than_go(rt: HostRuntime) -> Result<(), Fail> {
    for row in PAYS.lines() {
        assert!(rt; is_so(row)?, "{row}");
    }
    Ok(())
}
