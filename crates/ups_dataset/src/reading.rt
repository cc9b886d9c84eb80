//! Reading data sets.

ghost use Rattle.std.specs.Prelude.{◌≡◌, List, MatchResult};
ghost use Rattle.ups_dataset.specs.declared.fault.SetFault.TheVariants.{Memory};
ghost use Rattle.ups_dataset.specs.Data.{El};
ghost use Rattle.ups_dataset.specs.Spelling.{SpellsSet};
ghost use Rattle.ups_dataset.specs.Reading.{SetFails};

use crate::building::set_of;
use crate::fault::SetFault;
use crate::head::Reach;
use crate::passing::elements_end;
use crate::set::DataSet;
use std::alloc::Allocator;
use ups_pdu::TransferSyntax;

/// Reads the data set encoded in the bytes (PS3.5 section 7). Group lengths are read but not kept.
///
/// # Errors
///
/// The fault at the first place that has one. At an element, the first of these: the header is cut short (`Short`),
/// the tag is that of an item or an end (`BadItem`) or not above the one before it (`TagOrder`), no VR has the
/// letters (`BadVr`), a value other than items has an undefined length (`BadItem`), the length is odd (`OddLength`),
/// the value is cut short (`Short`). At an item: the header is cut short, the tag is another one (`BadItem`), the
/// length is odd, the item is cut short, items nest too deep (`Depth`). `Memory` is returned only for bytes that do
/// encode a data set.
pub fn read_set<A: Allocator + Copy>(
    alloc: A,
    syntax: TransferSyntax,
    bytes: &[u8],
) -> Result<DataSet<A>, SetFault>
    // The bytes encode the data set; or this is their first fault; or memory ran out, for bytes that do encode one.
    ensures found { MatchResult result (SpellsSet syntax bytes.now) (SetFails syntax bytes.now) }
    // A data set that the bytes encode is read, unless memory runs out.
    ensures only { (set : List El) → SpellsSet syntax bytes.now set → MatchResult result (λ s. s ≡ set) (λ e. e ≡ Memory) }
{
    let passed = elements_end(syntax, 0, Reach::Filled, bytes)?;
    let built = set_of(alloc, syntax, 0, Reach::Filled, passed.1, bytes)?;
    Ok(built.0)
}
