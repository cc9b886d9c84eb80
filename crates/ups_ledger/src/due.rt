//! How many entries must be committed before an answer is sent.

ghost use Rattle.std.specs.Prelude.{◌≡◌, ℕ, ◌+◌, ◌<◌, ◌≤◌, IfSome, Some};
ghost use Rattle.std.proofs.Props.{props};

use std::marker::Brand;
use std::sync::ledger::{Blank, Book, Ledger, Share};

/// What ties the sender of answers to the pass that makes them. Each association has a book of its own, of which the
/// sender has the total and the pass a share.
pub trait Noted: Ledger {
    ghost use Rattle.std.specs.Prelude.{ℕ};

    /// The number of calls that the pass had made before its first answer.
    ghost calls: { ℕ };
}

impl Noted for Brand {
    ghost calls = { 0 };
}

/// Returns the sum of two numbers, or None if no word holds it, or if there is no first one.
fn sum_of(entries: Option<u64>, more: u64) -> Option<u64>
    ensures { IfSome result (λ sum. (before : ℕ) × (entries ≡ Some before) × (sum ≡ before + more)) }
{
    entries?.checked_add(more)
}

/// How many entries must be committed before an answer is sent: as many as its pass has seen, which it notes here.
#[derive(Drop)]
pub struct CommitDue<D: Noted> {
    /// The number, or None if no word holds it: then nothing is sent.
    entries: Option<u64>,
    seen: Book<D>,
    ghost counted: { IfSome entries (λ count. count ≡ seen.total) } by { Prim.hlevel props },
}

impl<D: Noted> CommitDue<D> {
    /// Returns a new count, of nothing, and the share of the pass that notes here what it has seen.
    pub fn open(blank: Blank) -> (CommitDue<D>, Share<D>)
        requires name { blank.name ≡ D.name }
        requires parts { blank.parts ≡ D.parts }
        ensures parts { result.1.parts ≡ blank.parts }
        ensures amount { result.1.amount ≡ 0 }
    {
        let (seen, share) = blank.open::<D>();
        (
            CommitDue {
                entries: Some(0),
                seen,
            },
            share,
        )
    }

    /// Returns the number of entries that must be committed, or None if no word holds it.
    pub fn entries(&self) -> Option<u64>
        ensures { IfSome result (λ count. count ≡ self.now.seen.total) }
    {
        self.entries
    }

    /// Does nothing at run time: its contract tells a proof that a share is part of what is due.
    pub fn audit(&mut self, share: &mut Share<D>)
        ensures due { self.new.seen.total ≡ self.old.seen.total }
        ensures share { (share.new.amount ≡ share.old.amount) × (share.new.parts ≡ share.old.parts) }
        ensures part { share.old.amount ≤ self.old.seen.total }
    {
        self.seen.audit(share);
    }

    /// Notes that so many more entries must be committed.
    pub(crate) fn note(&mut self, share: &mut Share<D>, more: u64)
        requires { 0 < share.old.parts }
        ensures amount { share.new.amount ≡ share.old.amount + more }
        ensures parts { share.new.parts ≡ share.old.parts }
        ensures total { self.new.seen.total ≡ self.old.seen.total + more }
    {
        let CommitDue { entries, seen } = self;
        seen.add(share, more);
        *entries = sum_of(*entries, more);
    }
}
