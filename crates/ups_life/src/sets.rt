//! Lists of data sets.

ghost use Rattle.std.specs.Prelude.{◌≡◌, [], ◌∷◌, ◌++◌, OnOk, OnErr};

use std::alloc::{AllocError, Allocator};
use std::marker::Model;
use ups_dataset::DataSet;

/// A list of data sets. A contract sees it as the list of the data sets.
#[derive(Drop)]
pub struct Sets<A: Allocator + Copy> {
    sets: Vec<DataSet<A>, A>,
}

impl<A: Allocator + Copy> Model for Sets<A> {
    ghost use Rattle.std.specs.Prelude.{List};
    ghost use Rattle.ups_dataset.specs.Data.{El};

    ghost Value = { List (List El) };

    ghost use Rattle.ups_life.specs.SetsCode.{sets_code};

    ghost coded = { sets_code };

    ghost view = { λ s. s.sets.items };
}

impl<A: Allocator + Copy> Sets<A> {
    /// Creates an empty list, which takes no memory.
    pub fn new(alloc: A) -> Sets<A>
        ensures { result ≡ [] }
    {
        Sets {
            sets: Vec::new(alloc),
        }
    }

    /// Appends a data set to the list.
    ///
    /// # Errors
    ///
    /// Returns an error if memory runs out. The list is then unchanged.
    pub fn push(&mut self, set: DataSet<A>) -> Result<(), AllocError>
        ensures ok { OnOk result (self.new ≡ self.old ++ set ∷ []) }
        ensures err { OnErr result (self.new ≡ self.old) }
    {
        self.sets.push(set)?;
        Ok(())
    }

    /// Returns the data sets as a slice.
    pub fn as_slice(&self) -> &[DataSet<A>]
        ensures { result.now ≡ self.now }
    {
        self.sets.as_slice()
    }
}
