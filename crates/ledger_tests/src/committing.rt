ghost use Rattle.std.specs.Prelude.{◌≡◌};

use crate::desk::{asked, claim, creation, empty};
use std::alloc::Global;
use std::sync::Wait;
use std::test::Fail;
use ups_journal::Record;
use ups_ledger::{CommitFault, Ledger, LedgerFault, commit};
use ups_service::SharedService;
use ups_turn::{Desk, Pass};

/// A ledger that records what is appended to it, and accepts nothing while it is full.
#[derive(Drop)]
struct Slate {
    told: String,
    count: usize,
    is_full: bool,
}

/// Appends a word for each record, and a bar behind them.
///
/// Errors: Full if memory runs out.
fn tell(told: &mut String, records: &[Record<Global>]) -> Result<(), LedgerFault> {
    for stored in records {
        let name = str::from_utf8(stored.request.operation.name()).unwrap_or("?");
        if told.push_str(name).is_err() || told.push(' ').is_err() {
            return Err(LedgerFault::Full);
        }
    }
    if told.push('|').is_err() {
        return Err(LedgerFault::Full);
    }
    Ok(())
}

impl Ledger for Slate {
    ghost use Rattle.std.specs.Prelude.{◌≢◌, [], true};

    ghost kept = { λ _. [] };

    ghost told = { λ slate. slate.count };

    ghost is_sound = { λ _. true ≢ true };

    ghost is_honest = { λ _. true ≢ true };

    ghost is_first = { λ _. true ≢ true };

    ghost recovers = { λ _ _. true ≢ true };

    fn run(&self) -> u64 {
        1
    }

    fn append(&mut self, records: &[Record<Global>]) -> Result<(), LedgerFault> {
        if self.is_full {
            return Err(LedgerFault::Full);
        }
        let Some(count) = self.count.checked_add(records.len()) else {
            return Err(LedgerFault::Full);
        };
        tell(&mut self.told, records)?;
        self.count = count;
        Ok(())
    }

    fn tidy(&mut self) {}
}

/// Commits at most `most` entries after the first `before`, and returns how many are committed then.
fn committed<M: SharedService<Global>, R: Wait>(
    rt: &R,
    alloc: Global,
    desk: &Desk<M, Global>,
    pass: &mut Pass<M, Global>,
    slate: &mut Slate,
    before: usize,
    most: usize,
) -> Result<usize, CommitFault>
    requires here { pass.old.table ≡ desk.now.table }
    ensures stays { pass.new.table ≡ pass.old.table }
{
    commit(rt, alloc, desk, pass, slate, before, most)
}

/// Returns what is recorded of two requests that the first pass enters and the second commits one by one, once the
/// ledger is no longer full.
fn told_at<M: SharedService<Global>, R: Wait>(
    rt: &R,
    alloc: Global,
    desk: &Desk<M, Global>,
    one: &mut Pass<M, Global>,
    two: &mut Pass<M, Global>,
) -> Result<String, Fail>
    requires one { one.old.table ≡ desk.now.table }
    requires two { two.old.table ≡ desk.now.table }
{
    let mut slate = Slate {
        told: String::new(alloc),
        count: 0,
        is_full: true,
    };
    asked(rt, desk, one, creation(alloc)?)?;
    asked(rt, desk, one, claim()?)?;
    let refused = committed(rt, alloc, desk, two, &mut slate, 0, 9);
    if refused != Err(CommitFault::Ledger(LedgerFault::Full)) {
        return Err("it is not full".into());
    }
    slate.is_full = false;
    let first = committed(rt, alloc, desk, two, &mut slate, 0, 1).unwrap_or(9);
    let second = committed(rt, alloc, desk, two, &mut slate, first, 9).unwrap_or(9);
    let third = committed(rt, alloc, desk, two, &mut slate, second, 9).unwrap_or(9);
    let Slate { mut told, .. } = slate;
    if (first, second, third) != (1, 2, 2) {
        told.push_str("but not so many")?;
    }
    Ok(told)
}

/// The same with a new desk.
fn told<R: Wait>(rt: &R, alloc: Global) -> Result<String, Fail> {
    let Ok((desk, mut passes)) = Desk::open(alloc, empty(alloc)?, 2) else {
        return Err("no desk".into());
    };
    let (Some(mut two), Some(mut one)) = (passes.pop(), passes.pop()) else {
        return Err("no passes".into());
    };
    told_at(rt, alloc, &desk, &mut one, &mut two)
}

#[test]
fn what_is_entered_is_committed_in_its_order_and_once(rt: HostRuntime) -> Result<(), Fail> {
    let told = told(&rt, rt.alloc())?;
    assert_eq!(rt; told.as_str(), "create |change state |");
    Ok(())
}
