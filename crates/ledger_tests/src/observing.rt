ghost use Rattle.std.specs.Prelude.{◌≡◌};

use crate::desk::{asked, claim, creation, empty};
use std::alloc::Global;
use std::sync::Wait;
use std::test::Fail;
use ups_history::History;
use ups_life::Entry;
use ups_service::{Observer, SharedService};
use ups_turn::{Desk, Pass};

/// Records the number of entries in a history, and the sum of the numbers of their callers.
#[derive(Drop)]
struct Count {
    entries: usize,
    callers: u32,
}

/// Returns the sum of the numbers of the callers of a history.
fn callers_of(history: &[Entry<Global>]) -> u32 {
    let mut callers: u32 = 0;
    for entry in history {
        callers = callers.wrapping_add(entry.caller);
    }
    callers
}

impl Observer<Global> for Count {
    ghost use Rattle.std.specs.Prelude.{◌≡◌, length};

    ghost observed = { λ old history new. new.entries ≡ length history };

    fn observe(&mut self, history: &History<Global>) {
        self.callers = callers_of(history.recent());
        self.entries = history.len();
    }
}

/// Returns what the second of two passes observes before the first asks for anything, after its creation of a step, and
/// after its claim; and how many entries it has seen then.
fn observed_at<M: SharedService<Global>, R: Wait>(
    rt: &R,
    alloc: Global,
    desk: &Desk<M, Global>,
    one: &mut Pass<M, Global>,
    two: &mut Pass<M, Global>,
) -> Result<(usize, usize, Count, u64), Fail>
    requires one { one.old.table ≡ desk.now.table }
    requires two { two.old.table ≡ desk.now.table }
{
    let mut count = Count {
        entries: 9,
        callers: 9,
    };
    desk.observe(rt, two, &mut count);
    let first = count.entries;
    asked(rt, desk, one, creation(alloc)?)?;
    desk.observe(rt, two, &mut count);
    let second = count.entries;
    asked(rt, desk, one, claim()?)?;
    desk.observe(rt, two, &mut count);
    Ok((first, second, count, two.seen()))
}

/// The same with a new desk.
fn observed<R: Wait>(rt: &R, alloc: Global) -> Result<(usize, usize, Count, u64), Fail> {
    let Ok((desk, mut passes)) = Desk::open(alloc, empty(alloc)?, 2) else {
        return Err("no desk".into());
    };
    let (Some(mut two), Some(mut one)) = (passes.pop(), passes.pop()) else {
        return Err("no passes".into());
    };
    observed_at(rt, alloc, &desk, &mut one, &mut two)
}

#[test]
fn an_observer_sees_what_others_have_entered_and_enters_nothing(
    rt: HostRuntime,
) -> Result<(), Fail> {
    let (first, second, count, seen) = observed(&rt, rt.alloc())?;
    assert_eq!(rt; (first, second), (0, 1));
    assert_eq!(rt; (count.entries, count.callers, seen), (2, 2, 2));
    Ok(())
}
