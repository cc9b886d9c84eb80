//! The laws of the grammar of data sets, each the contract of a function that does nothing.

ghost use Rattle.std.specs.Prelude.{◌≡◌, ℕ, List, if◌then◌else◌, Some};
ghost use Rattle.ups_dataset.specs.declared.fault.SetFault.{SetFault};
ghost use Rattle.ups_dataset.specs.declared.fault.SetFault.TheVariants.{Memory};
ghost use Rattle.ups_pdu.specs.declared.syntax.TransferSyntax.{TransferSyntax};
ghost use Rattle.ups_dataset.specs.declared.tag.Tag.{Tag};
ghost use Rattle.ups_dataset.specs.Tag.{is_tag};
ghost use Rattle.ups_dataset.specs.Data.{El, element_at, put, laid_over, first_of_two};
ghost use Rattle.ups_dataset.specs.Spelling.{SpellsSet};
ghost use Rattle.ups_dataset.specs.Valid.{IsDataSet};
ghost use Rattle.ups_dataset.specs.Reading.{SetFails};

/// Does nothing at run time: its contract tells a proof that bytes encode at most one data set.
pub fn bytes_spell_one_set()
    ensures { (syntax : TransferSyntax) → (bytes : List ℕ) → (one other : List El) → SpellsSet syntax bytes one → SpellsSet syntax bytes other → one ≡ other }
{}

/// Does nothing at run time: its contract tells a proof that bytes that encode a data set have no fault but lack of
/// memory.
pub fn spelled_bytes_have_no_fault()
    ensures { (syntax : TransferSyntax) → (bytes : List ℕ) → (set : List El) → (fault : SetFault) → SpellsSet syntax bytes set → SetFails syntax bytes fault → fault ≡ Memory }
{}

/// Does nothing at run time: its contract tells a proof that an element put in a set is found at its tag, and that
/// other tags keep their elements.
pub fn what_was_put_is_found()
    ensures { (tag : Tag) → (x : El) → (set : List El) → element_at tag (put x set) ≡ (if is_tag x.tag tag then Some x else element_at tag set) }
{}

/// Does nothing at run time: its contract tells a proof that a set laid over another has its own elements at their
/// tags, and those of the other at the other tags.
pub fn what_is_laid_over_is_found()
    ensures { (tag : Tag) → (above below : List El) → IsDataSet above → element_at tag (laid_over above below) ≡ first_of_two (element_at tag above) (element_at tag below) }
{}
