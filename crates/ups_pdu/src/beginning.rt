//! Reading from the beginning of a PDU, before the whole PDU is there.

ghost use Rattle.std.specs.Prelude.{MatchOption, List, ℕ};
ghost use Rattle.ups_pdu.specs.Beginning.{IsCallingTitle};

use crate::ae::Ae;
use crate::kind::PduKind;

/// The offset of the title of the calling application entity in an A-ASSOCIATE-RQ (PS3.8 table 9-11).
const CALLING_FROM: usize = 26;

/// The offset of the end of that title.
const CALLING_TO: usize = 42;

/// Reads the title of the calling application entity from the beginning of an A-ASSOCIATE-RQ (PS3.8 section 9.3.2).
///
/// Returns None if the bytes begin another PDU, break off before the end of the title, or encode no title.
pub fn calling_title(beginning: &[u8]) -> Option<Ae>
    ensures { MatchOption result ((title : List ℕ) → IsCallingTitle beginning.now title → ⊥) (IsCallingTitle beginning.now) }
{
    let (code, _) = beginning.split_first()?;
    if *code != PduKind::AssociateRq.code() {
        return None;
    }
    Ae::of(beginning.get(CALLING_FROM..CALLING_TO)?)
}
