//! Readable keys.

use crate::fault::KeyFault;
use crate::faults::keys_fault;
use crate::first::{First, first_among};
use crate::matching::all_match;
use crate::meeting::meets_all;
use crate::prepared::Prepared;
use crate::preparing::prepare_keys;
use std::alloc::{AllocError, Allocator};
use std::marker::Model;
use ups_dataset::DataSet;

/// The keys of a query (PS3.4 section C.2.2.2), all readable, and the offset by which DTs without one are read in the
/// keys and in the stored data sets, in minutes east of UTC. A contract sees the attributes and the offset.
pub struct Keys<A: Allocator + Copy> {
    attributes: DataSet<A>,
    offset: i16,
    prepared: Option<Prepared<A>>,
}

impl<A: Allocator + Copy> Drop for Keys<A> {
    fn drop(self) {
        let Keys {
            attributes: _,
            offset: _,
            prepared: _,
        } = self;
    }
}

impl<A: Allocator + Copy> Model for Keys<A> {
    ghost use Rattle.std.specs.Prelude.{◌≡◌, None, IfSome};
    ghost use Rattle.ups_match.specs.Matching.{KeySet, fault_of};
    ghost use Rattle.ups_match.specs.Met.{Prepares};
    ghost use Rattle.ups_match.specs.KeyCode.{keys_code};

    ghost Value = { KeySet };

    ghost coded = { keys_code };

    ghost view = { λ k. record { attributes = k.attributes; offset = k.offset } };

    ghost invariant = { λ k. (fault_of k.offset k.attributes ≡ None) × IfSome k.prepared (λ p. Prepares p k.attributes) };
}

impl<A: Allocator + Copy> Keys<A> {
    ghost use Rattle.std.specs.Prelude.{◌≡◌, None, Some, IfOk, MatchResult};
    ghost use Rattle.ups_match.specs.Class.{first_key, first_view};
    ghost use Rattle.ups_match.specs.Matching.{fault_of, is_match};

    /// Checks and prepares the keys of a data set; `offset` is that of a DT without one, in minutes east of UTC.
    /// Preparing them takes memory: if there is none, they are matched more slowly.
    ///
    /// # Errors
    ///
    /// The fault of the first unreadable key by rising tag: `BadRange` for a DT key that is neither a DT nor a range of
    /// DTs (PS3.4 section C.2.2.2.5), `TwoItems` for a sequence of more than one item (PS3.4 section C.2.2.2.6).
    #[tactic(auto, unfolding(crate::specs::Matching::fault_of))]
    pub fn of(attributes: DataSet<A>, offset: i16) -> Result<Keys<A>, KeyFault>
        ensures keys { IfOk result (λ k. k ≡ record { attributes = attributes; offset = offset }) }
        ensures fault { MatchResult result (λ k. fault_of offset attributes ≡ None) (λ e. fault_of offset attributes ≡ Some e) }
    {
        if let Some(fault) = keys_fault(&attributes, offset) {
            return Err(fault);
        }
        Ok(Keys::readable(attributes, offset))
    }

    /// Prepares the keys of a data set that are all readable.
    fn readable(attributes: DataSet<A>, offset: i16) -> Keys<A>
        requires { fault_of offset attributes ≡ None }
        ensures { result ≡ record { attributes = attributes; offset = offset } }
    {
        let prepared = prepare_keys(&attributes).ok();
        Keys {
            attributes,
            offset,
            prepared,
        }
    }

    /// Returns a copy.
    ///
    /// # Errors
    ///
    /// If memory runs out.
    pub fn copy(&self) -> Result<Keys<A>, AllocError>
        ensures { IfOk result (λ k. k ≡ self.now) }
    {
        let attributes = self.attributes.copy()?;
        Ok(Keys::readable(attributes, self.offset))
    }

    /// Returns the data set of the keys.
    pub fn attributes(&self) -> &DataSet<A>
        ensures attributes { result.now ≡ self.now.attributes }
        ensures readable { fault_of self.now.offset self.now.attributes ≡ None }
    {
        &self.attributes
    }

    /// Returns whether a data set matches the keys. It takes no memory.
    pub(crate) fn is_match(&self, row: &DataSet<A>) -> bool
        ensures { result ≡ is_match self.now row.now }
    {
        match &self.prepared {
            Some(prepared) => meets_all(prepared, row, self.offset),
            None => all_match(&self.attributes, row, self.offset),
        }
    }

    /// Returns the offset by which DTs without one are read, in minutes east of UTC.
    pub fn offset(&self) -> i16
        ensures { result ≡ self.now.offset }
    {
        self.offset
    }

    /// Returns the first of the keys by which steps are looked up, for a service that reads DTs by `offset`, in minutes
    /// east of UTC. It is the SOP Instance UID, the patient ID, the worklist label, the code value of the station name,
    /// the state or the priority, if that is a single value that is not empty and has no wild cards; or else the range
    /// of the start, if the keys have that offset. It takes no memory.
    #[tactic(auto, unfolding(crate::specs::Class::first_key))]
    pub fn first(&self, offset: i16) -> First<'_>
        ensures { first_view result ≡ first_key offset self.now }
    {
        first_among(&self.attributes, self.offset, offset)
    }
}
