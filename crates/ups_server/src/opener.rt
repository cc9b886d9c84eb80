//! Opening the store of a server.

use std::alloc::Global;
use ups_ledger::Ledger;
use ups_manager::Manager;
use ups_terms::StartChoices;

/// Why a store was not opened.
#[derive(Clone, Copy, Debug, PartialEq, Eq)]
pub enum Unopened {
    /// Memory ran out.
    Memory,
    /// Another reason, which was printed.
    Told,
}

/// Opens the store in which a server keeps its accepted requests. Only the program itself knows how they are kept.
pub trait StoreOpener<'a, L: Ledger> {
    ghost use Rattle.std.specs.Prelude.{◌≡◌, [], ℕ, List, length, IfOk};
    ghost use Rattle.std.specs.Global.{Global};
    ghost use Rattle.ups_life.specs.declared.entry.Entry.{Entry};
    ghost use Rattle.ups_life.specs.Settings.{Settings};
    ghost use Rattle.ups_ledger.specs.Backed.{HadAtLeast};
    ghost use Rattle.ups_ledger.specs.Keeping.{AreFirst, LeavesFirst};
    ghost use Rattle.ups_terms.specs.declared.choices.StartChoices.{StartChoices};

    /// That a server with these settings begins with this history on a file, by these choices.
    ghost begins: { Self → List ℕ → StartChoices → Settings → List (Entry Global) → Type 0 };

    /// Opens the store in a file, and enters its requests into a manager without requests. The choices say what the
    /// start may do with requests of other settings, and whether it may compact them. Returns the ledger that continues
    /// the store, and the number of its records. A crash from then on would leave at least these.
    ///
    /// # Errors
    ///
    /// Memory; Told after printing why the store was not opened, or its requests were not entered.
    fn open(
        &self,
        file: &'a str,
        choices: StartChoices,
        manager: &mut Manager<Global>,
    ) -> Result<(L, usize), Unopened>
        requires new { manager.old.history ≡ [] }
        ensures settings { manager.new.settings ≡ manager.old.settings }
        ensures told { IfOk result (λ kept. L.told kept.0 ≡ kept.1) }
        ensures had { IfOk result (λ kept. ∥ HadAtLeast L.Ledger kept.1 ∥₁) }
        ensures first { IfOk result (λ kept. L.is_sound kept.0 → AreFirst (L.kept kept.0) manager.new.history kept.1) }
        ensures safe { IfOk result (λ kept. LeavesFirst L.Ledger kept.0 manager.new.history kept.1) }
        ensures begins { IfOk result (λ kept. L.is_sound kept.0 → begins self.now file.now choices manager.old.settings manager.new.history) }
        ensures all { IfOk result (λ kept. kept.1 ≡ length manager.new.history) };

    /// Looks at the store in a file as a start with the settings of a manager does first, without a start: no request is
    /// entered, and no run begins. Of a store that a running server has, only what that told of its terms is read; the port
    /// on which it listens is returned, or None if no server has the store.
    ///
    /// # Errors
    ///
    /// Memory; Told after printing why a start would not use the store.
    fn look(
        &self,
        file: &'a str,
        choices: StartChoices,
        manager: &Manager<Global>,
    ) -> Result<Option<u16>, Unopened>;
}
