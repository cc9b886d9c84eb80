//! By how much the numbers of the events of each watcher are less in a compacted history.

ghost use Rattle.std.specs.Prelude.{◌≡◌, ◌+◌, ◌<◌, ◌||◌, ◌++◌, [], ◌∷◌, ℕ, List, true, false, IfOk, OnOk};
ghost use Rattle.std.specs.Str.{bytes_eq};
ghost use Rattle.ups_compact.specs.Shifts.{has_shift, less_by, AreSums};

use std::alloc::{AllocError, Allocator};
use std::marker::Model;
use ups_pdu::Ae;

/// The shift of a watcher: by how much the numbers of its events are less than those in the log of all accepted requests
/// (PS3.4 CC.2.4).
#[derive(Clone, Copy)]
pub struct Shift {
    /// The watcher.
    pub watcher: Ae,
    /// By how much the numbers are less.
    pub less: u64,
}

/// The shifts of watchers. That of a watcher is the first one that has its title, and 0 if none has. A contract sees the
/// list of the shifts.
#[derive(Drop)]
pub struct Shifts<A: Allocator + Copy> {
    of: Vec<Shift, A>,
}

impl<A: Allocator + Copy> Model for Shifts<A> {
    ghost use Rattle.std.specs.Prelude.{List};
    ghost use Rattle.ups_compact.specs.declared.shifts.Shift.{Shift};

    ghost Value = { List Shift };

    ghost view = { λ shifts. shifts.of.items };
}

impl<A: Allocator + Copy> Shifts<A> {
    /// Returns no shifts: that of each watcher is 0.
    pub fn none(alloc: A) -> Shifts<A>
        ensures none { result ≡ [] }
        ensures less { (w : List ℕ) → less_by result w ≡ 0 }
    {
        Shifts {
            of: Vec::new(alloc),
        }
    }

    /// Returns whether one of them is the shift of this watcher.
    pub fn has(&self, ae: Ae) -> bool
        ensures { result ≡ has_shift self.now ae }
    {
        has_shift(self.of.as_slice(), ae)
    }

    /// Returns the shift of a watcher, which is 0 if it is not among them.
    pub fn less_for(&self, ae: Ae) -> u64
        ensures { result ≡ less_by self.now ae }
    {
        less_of(self.of.as_slice(), ae.as_bytes())
    }

    /// Returns the shift of the watcher with this title, which is 0 if it is not among them.
    pub fn less_for_title(&self, title: &[u8]) -> u64
        ensures { result ≡ less_by self.now title.now }
    {
        less_of(self.of.as_slice(), title)
    }

    /// Returns whether the shift of each watcher is 0.
    pub fn is_none(&self) -> bool
        ensures none { result ≡ true → (w : List ℕ) → less_by self.now w ≡ 0 }
        ensures some { result ≡ false → (w : List ℕ) × (0 < less_by self.now w) }
    {
        are_none(self.of.as_slice())
    }

    /// Adds the shift of a watcher, behind those that are there. It counts if there was none of this watcher.
    ///
    /// # Errors
    ///
    /// If memory runs out.
    pub fn push(&mut self, watcher: Ae, less: u64) -> Result<(), AllocError>
        ensures { OnOk result (self.new ≡ self.old ++ record { watcher = watcher; less = less } ∷ []) }
    {
        self.of.push(Shift { watcher, less })?;
        Ok(())
    }

    /// Returns the sums of these shifts and others, watcher by watcher.
    ///
    /// # Errors
    ///
    /// If memory runs out, or if a sum is above `u64::MAX`.
    pub fn and(&self, alloc: A, more: &Shifts<A>) -> Result<Shifts<A>, AllocError>
        ensures { IfOk result (λ both. (w : List ℕ) → less_by both w ≡ less_by self.now w + less_by more.now w) }
    {
        let mut both = Shifts::none(alloc);
        add_sums(&mut both, self.of.as_slice(), self, more)?;
        add_sums(&mut both, more.of.as_slice(), self, more)?;
        Ok(both)
    }
}

/// Returns whether one of these is the shift of this watcher.
fn has_shift(shifts: &[Shift], ae: Ae) -> bool
    ensures { result ≡ has_shift shifts.now ae }
{
    shifts
        .iter()
        .any(|shift| shift.watcher.as_bytes() == ae.as_bytes())
}

/// Returns the first shift of a watcher among these, or 0 if there is none.
fn less_of(shifts: &[Shift], title: &[u8]) -> u64
    ensures { result ≡ less_by shifts.now title.now }
{
    for shift in shifts {
        if shift.watcher.as_bytes() == title {
            return shift.less;
        }
    }
    0
}

/// Returns whether the shift of each watcher is 0.
fn are_none(shifts: &[Shift]) -> bool
    ensures none { result ≡ true → (w : List ℕ) → less_by shifts.now w ≡ 0 }
    ensures some { result ≡ false → (w : List ℕ) × (0 < less_by shifts.now w) }
{
    for shift in shifts {
        if less_of(shifts, shift.watcher.as_bytes()) > 0 {
            return false;
        }
    }
    true
}

/// Adds the sum of two shifts of a watcher to sums, if they do not have it yet.
///
/// Errors: if memory runs out, or if the sum is above `u64::MAX`.
fn add_sum<A: Allocator + Copy>(
    sums: &mut Shifts<A>,
    watcher: Ae,
    first: &Shifts<A>,
    second: &Shifts<A>,
) -> Result<(), AllocError>
    ensures sums { OnOk result (AreSums first.now second.now sums.old → AreSums first.now second.now sums.new) }
    ensures has { OnOk result ((w : List ℕ) → has_shift sums.new w ≡ (has_shift sums.old w || bytes_eq watcher w)) }
{
    if sums.has(watcher) {
        return Ok(());
    }
    let Some(less) = first
        .less_for(watcher)
        .checked_add(second.less_for(watcher))
    else {
        return Err(AllocError);
    };
    sums.push(watcher, less)
}

/// Adds the sums of two shifts of each watcher that is among these to sums.
///
/// Errors: if memory runs out, or if a sum is above `u64::MAX`.
fn add_sums<A: Allocator + Copy>(
    sums: &mut Shifts<A>,
    of: &[Shift],
    first: &Shifts<A>,
    second: &Shifts<A>,
) -> Result<(), AllocError>
    ensures sums { OnOk result (AreSums first.now second.now sums.old → AreSums first.now second.now sums.new) }
    ensures has { OnOk result ((w : List ℕ) → has_shift sums.new w ≡ (has_shift sums.old w || has_shift of.now w)) }
{
    for shift in of {
        add_sum(sums, shift.watcher, first, second)?;
    }
    Ok(())
}
