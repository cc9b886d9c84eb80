//! A list of shared rows.

ghost use Rattle.std.specs.Prelude.{◌≡◌, ◌<◌, ◌≤◌, ◌+◌, ◌^◌, ◌++◌, [], ◌∷◌, length, IfOk, OnOk, OnErr, slice_get};
ghost use Rattle.std.specs.Option.{option_copied};
ghost use Rattle.ups_rows.specs.Answering.{answers_among, rows_of_parts};

use crate::answering::{add_parts, add_some};
use crate::first::{first_of, first_of_parts};
use crate::shared_part::SharedPart;
use crate::shared_row::SharedRow;
use std::alloc::{AllocError, Allocator};
use std::marker::Model;
use ups_dataset::DataSet;
use ups_life::Sets;
use ups_match::{Keys, Matcher};

/// The most rows that one call answers from: a matcher counts what it is asked, in 64 bits. No memory holds more.
const MOST: usize = (1 << 63) - 1;

/// Rows of steps that others may share: those of parts, and single ones behind them. They never change, whatever becomes
/// of the steps. A contract sees their attributes, in order.
#[derive(Drop)]
pub struct SharedRows<A: Allocator + Copy> {
    parts: Vec<SharedPart<A>, A>,
    rows: Vec<SharedRow<A>, A>,
}

impl<A: Allocator + Copy> Model for SharedRows<A> {
    ghost use Rattle.std.specs.Prelude.{List, ◌++◌};
    ghost use Rattle.ups_dataset.specs.Data.{El};

    ghost Value = { List (List El) };

    ghost use Rattle.ups_life.specs.SetsCode.{sets_code};

    ghost coded = { sets_code };

    ghost use Rattle.ups_rows.specs.Answering.{attributes_of_rows, rows_of_parts};

    ghost view = { λ r. rows_of_parts r.parts.items ++ attributes_of_rows r.rows.items };
}

impl<A: Allocator + Copy> SharedRows<A> {
    /// Returns no rows, which takes no memory.
    pub fn new(alloc: A) -> SharedRows<A>
        ensures { result ≡ [] }
    {
        SharedRows {
            parts: Vec::new(alloc),
            rows: Vec::new(alloc),
        }
    }

    /// Returns the rows of parts, one part after another.
    pub fn of_parts(parts: Vec<SharedPart<A>, A>) -> SharedRows<A>
        ensures { result ≡ rows_of_parts parts.items }
    {
        let rows = Vec::new(*parts.allocator());
        SharedRows { parts, rows }
    }

    /// Appends a row, which has one more owner then. Nothing is copied.
    ///
    /// # Errors
    ///
    /// If memory runs out, or if there are 2^63 owners of the row. Nothing is added then.
    pub fn add(&mut self, row: &SharedRow<A>) -> Result<(), AllocError>
        ensures ok { OnOk result (self.new ≡ self.old ++ row.now.attributes ∷ []) }
        ensures err { OnErr result (self.new ≡ self.old) }
    {
        let shared = row.share()?;
        self.rows.push(shared)?;
        Ok(())
    }

    /// Returns the attributes of the first row, or None if there is none.
    pub fn first(&self) -> Option<&DataSet<A>>
        ensures { option_copied result ≡ slice_get self.now 0 }
    {
        match first_of_parts(self.parts.as_slice()) {
            Some(attributes) => Some(attributes),
            None => first_of(self.rows.as_slice()),
        }
    }

    /// Returns the answers to keys of those rows that match them, in their order. The matcher is asked once about each
    /// row.
    ///
    /// # Errors
    ///
    /// If memory runs out, or if there are 2^63 rows.
    pub fn answers<M: Matcher>(
        &self,
        keys: &Keys<A>,
        matcher: &mut M,
    ) -> Result<Sets<A>, AllocError>
        requires { M.asked matcher.old < 2 ^ 63 }
        ensures found { IfOk result (λ sets. sets ≡ answers_among (M.says keys.now) keys.now.attributes self.now) }
        ensures each { OnOk result (M.asked matcher.new ≡ M.asked matcher.old + length self.now) }
        ensures most { M.asked matcher.new ≤ M.asked matcher.old + length self.now }
    {
        let mut found = Sets::new(*self.rows.allocator());
        let left = add_parts(&mut found, self.parts.as_slice(), MOST, keys, matcher)?;
        add_some(&mut found, self.rows.as_slice(), left, keys, matcher)?;
        Ok(found)
    }
}
