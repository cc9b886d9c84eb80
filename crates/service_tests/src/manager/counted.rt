ghost use Rattle.std.specs.Prelude.{true, false};

use super::{answer_to, told, with};
use fixtures::rows::{check, cut};
use fixtures::title;
use std::alloc::{Allocator, Global};
use std::test::Fail;
use ups_dataset::DataSet;
use ups_life::{Ask, Reply};
use ups_manager::*;
use ups_match::{Keys, Matcher, Probe};

/// Requests with their replies, and finds with the number of steps that the matcher is asked about and the number that
/// match. The keys of a find come after their offset in minutes.
const ROWS: &str = "\
0 SCHED1 1709208000 create 1.2.3.1 - -|00741202=READS|00100020=P1 -> 0000
0 SCHED1 1709208000 create 1.2.3.2 - -|00741202=READS|00100020=P2 -> 0000
0 SCHED1 1709208000 create 1.2.3.3 - -|00741202=REPROC|00100020=P1 -> 0000
find 0 00741202=READS|00100020=P1 -> 2/1
find 0 00741202=READS  -> 2/2
find 0 00741202=RE* -> 3/3
find 0 00404005=20240229- -> 3/3
find 0 00404005=20240301- -> 0/0
find 0 00741000=SCHEDULED|00741200=MEDIUM -> 3/3
find 0 00100020=P9|00741202=READS -> 0/0
0 SCHED1 1709208000 cancel 1.2.3.2 - -|00741238=stop -> 0000
0 SCHED1 1709208000 set 1.2.3.1 - -|00741202=REPROC -> 0000
0 SCHED1 1709208000 set 1.2.3.2 - -|00741202=NEVER -> C300
find 0 00741000=SCHEDULED -> 2/2
find 0 00741000=CANCELED -> 1/1
find 0 00741202=READS -> 1/1
find 0 00741202=NEVER -> 0/0
0 SCHED1 1709208000 set 1.2.3.1 - -|00404025/00080100=R1,00080102=99A,00080104=ROOM -> 0000
0 SCHED1 1709208000 set 1.2.3.3 - -|00404025/00080100=R1,00080102=99B,00080104=ROOM -> 0000
find 0 00404025/00080100=R1,00080102=99A -> 2/1
find 0 00741202=REPROC -> 2/2
find 60 00404005=20240301- -> 3/0
find 0 00741202=READS\\X -> 3/0
0 SCHED1 1709208060 words 1.2.3.1 - -|sweep -> 0000+1
find 0 00741202=* -> 2/2
find 0 00100020=P2 -> 0/0
find 0 00100020=P1 -> 2/2
0 SCHED1 1709208060 set 1.2.3.3 - -|00100020=P2 -> 0000
find 0 00100020=P1 -> 1/1
find 0 00100020=P2 -> 1/1";

/// A matcher that matches everything.
#[derive(Drop)]
struct Always {
    count: u64,
}

impl Matcher for Always {
    ghost says = { λ _ _. true };

    ghost asked = { λ m. m.count };

    fn matches<A: Allocator + Copy>(&mut self, _keys: &Keys<A>, _row: &DataSet<A>) -> bool {
        self.count += 1;
        true
    }
}

/// A matcher that matches nothing.
#[derive(Drop)]
struct Never {
    count: u64,
}

impl Matcher for Never {
    ghost says = { λ _ _. false };

    ghost asked = { λ m. m.count };

    fn matches<A: Allocator + Copy>(&mut self, _keys: &Keys<A>, _row: &DataSet<A>) -> bool {
        self.count += 1;
        false
    }
}

/// Steps, and finds by the two matchers: the number of steps that they are asked about, and what is found. Two of the
/// three steps have the station code, and the same two the label.
const OWN: &str = "\
0 SCHED1 1709208000 create 1.2.3.1 - -|00741202=READS|00100020=P1 -> 0000
0 SCHED1 1709208000 create 1.2.3.2 - -|00741202=READS|00100020=P2 -> 0000
0 SCHED1 1709208000 create 1.2.3.3 - -|00741202=REPROC|00100020=P1 -> 0000
0 SCHED1 1709208000 cancel 1.2.3.2 - -|00741238=stop -> 0000
0 SCHED1 1709208000 set 1.2.3.1 - -|00741202=REPROC -> 0000
0 SCHED1 1709208000 set 1.2.3.1 - -|00404025/00080100=R1,00080102=99A -> 0000
0 SCHED1 1709208000 set 1.2.3.3 - -|00404025/00080100=R1,00080102=99B -> 0000
always 0 00404025/00080100=R1,00080102=99A -> 2: 0000 00404025=[00080100=R1 00080102=99A_ ] 00404025=[00080100=R1 00080102=99B_ ]
never 0 00741202=REPROC -> 2: 0000";

/// Finds in a manager, and returns the number of steps that its matcher is asked about and the number that match.
pub(super) fn counts<A: Allocator + Copy>(
    manager: &mut Manager<A>,
    keys: &Keys<A>,
) -> Result<(u64, usize), Fail> {
    let mut probe = Probe::new();
    match manager.find(keys, &mut probe) {
        Reply::Sets(sets) => Ok((probe.count(), sets.as_slice().len())),
        _ => Err("a status alone".into()),
    }
}

/// Parses an offset in minutes.
fn offset_of(text: &str) -> Result<i16, Fail> {
    Ok(text.parse::<i16>()?)
}

/// Returns keys, which come after their offset.
fn keys_with_offset(alloc: Global, text: &str) -> Result<Keys<Global>, Fail> {
    let (offset, keys) = cut(text, " ")?;
    Ok(Keys::of(with(alloc, DataSet::new(alloc), keys)?, offset_of(offset)?)?)
}

/// Lets a manager answer a query, and returns the number of steps that it notes to have asked about, and the number that
/// match.
fn noted(manager: &mut Manager<Global>, keys: Keys<Global>) -> Result<(u64, usize), Fail> {
    match manager.answer_as(0, title("SCHED1")?, 1_709_208_000, Ask::Find(keys)) {
        Reply::Sets(sets) => Ok((manager.asked(), sets.as_slice().len())),
        _ => Err("a status alone".into()),
    }
}

/// Finds by keys, which come after their offset, and returns as a text how many steps are asked about and how many
/// match. A query that is answered asks about as many.
fn counted(
    rt: &impl AllocGlobal,
    manager: &mut Manager<Global>,
    find: &str,
) -> Result<String, Fail> {
    let keys = keys_with_offset(rt.alloc(), find)?;
    let (asked, found) = counts(manager, &keys)?;
    if noted(manager, keys)? != (asked, found) {
        return Err("an answer that asks about other steps".into());
    }
    Ok(format!(in rt.alloc(); "{asked}/{found}")?)
}

/// Finds with the matcher that matches everything, and returns the reply and the number of times it was asked.
fn found_always(manager: &mut Manager<Global>, keys: &Keys<Global>) -> (Reply<Global>, u64) {
    let mut matcher = Always { count: 0 };
    (manager.find(keys, &mut matcher), matcher.count)
}

/// Finds with the matcher that matches nothing, and returns the same.
fn found_never(manager: &mut Manager<Global>, keys: &Keys<Global>) -> (Reply<Global>, u64) {
    let mut matcher = Never { count: 0 };
    (manager.find(keys, &mut matcher), matcher.count)
}

/// Finds with the matcher of this name, by keys after their offset, and returns as a text the number of times it was
/// asked and the reply.
fn found_by(
    rt: &impl AllocGlobal,
    manager: &mut Manager<Global>,
    name: &str,
    find: &str,
) -> Result<String, Fail> {
    let keys = keys_with_offset(rt.alloc(), find)?;
    let (reply, count) = if name == "always" {
        found_always(manager, &keys)
    } else {
        found_never(manager, &keys)
    };
    let told = told(rt, &reply)?;
    Ok(format!(in rt.alloc(); "{count}: {told}")?)
}

/// Asks what a row says, and returns the outcome as a text.
fn come_of(
    rt: &impl AllocGlobal,
    manager: &mut Manager<Global>,
    asked: &str,
) -> Result<String, Fail> {
    match asked.split_once(' ') {
        Some(("find", find)) => counted(rt, manager, find),
        Some((name, find)) if name == "always" || name == "never" => {
            found_by(rt, manager, name, find)
        }
        _ => answer_to(rt, manager, asked, false),
    }
}

/// Asks what a row says, and compares the outcome.
fn row_is_so(rt: &impl AllocGlobal, manager: &mut Manager<Global>, row: &str) -> Result<(), Fail> {
    let (asked, due) = cut(row, " -> ")?;
    check(row, come_of(rt, manager, asked)?.as_str() == due)
}

/// Asks rows, one after the other.
pub(super) fn rows_are_so(
    rt: &impl AllocGlobal,
    manager: &mut Manager<Global>,
    rows: &str,
) -> Result<(), Fail> {
    for row in rows.lines() {
        row_is_so(rt, manager, row)?;
    }
    Ok(())
}

#[test]
fn a_matcher_is_asked_of_the_class_of_a_query_alone(rt: HostRuntime) -> Result<(), Fail> {
    let mut manager = Manager::new(rt.alloc(), &[], 60, 0, 100)?;
    rows_are_so(&rt, &mut manager, ROWS)?;
    check("9 requests", manager.history().len() == 9)
}

#[test]
fn a_matcher_decides_which_steps_of_the_class_are_found(rt: HostRuntime) -> Result<(), Fail> {
    let mut manager = Manager::new(rt.alloc(), &[], 60, 0, 100)?;
    rows_are_so(&rt, &mut manager, OWN)
}
