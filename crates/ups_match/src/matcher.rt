//! The decision whether a data set matches keys.

ghost use Rattle.std.specs.Prelude.{◌≡◌, ◌<◌, ◌+◌, ◌-◌, ◌^◌, ℕ, Bool, List};
ghost use Rattle.ups_dataset.specs.Data.{El};
ghost use Rattle.ups_match.specs.Matching.{KeySet, is_match};

use crate::keys::Keys;
use std::alloc::Allocator;
use ups_dataset::DataSet;

/// Decides whether data sets match keys, and counts how often it is asked.
pub trait Matcher {
    /// The answer of the type for keys and a data set.
    ghost says: { KeySet → List El → Bool };
    /// The number of times it was asked.
    ghost asked: { Self → ℕ };

    /// Returns whether a data set matches keys, and counts the question.
    fn matches<A: Allocator + Copy>(&mut self, keys: &Keys<A>, row: &DataSet<A>) -> bool
        requires { asked self.old < 2 ^ 64 - 1 }
        ensures answer { result ≡ says keys.now row.now }
        ensures count { asked self.new ≡ asked self.old + 1 };
}

/// The matcher that follows the rules of PS3.4 section C.2.2.2.
#[derive(Debug, Drop)]
pub struct Probe {
    count: u64,
}

impl Probe {
    /// Returns a matcher that has not been asked yet.
    pub fn new() -> Probe
        ensures { result.count ≡ 0 }
    {
        Probe { count: 0 }
    }

    /// Returns the number of times it was asked.
    pub fn count(&self) -> u64
        ensures { result ≡ self.now.count }
    {
        self.count
    }
}

impl Matcher for Probe {
    ghost says = { is_match };

    ghost asked = { λ p. p.count };

    fn matches<A: Allocator + Copy>(&mut self, keys: &Keys<A>, row: &DataSet<A>) -> bool {
        self.count += 1;
        keys.is_match(row)
    }
}
