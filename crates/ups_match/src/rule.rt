//! The rules by which keys are matched, by value representation (PS3.4 section C.2.2.2).

ghost use Rattle.std.specs.Prelude.{◌≡◌};
ghost use Rattle.ups_match.specs.Values.{rule_of, text_vr};

use ups_dataset::Vr;

/// The rule by which a key with a text is matched with a stored text (PS3.4 section C.2.2.2).
#[derive(Clone, Copy, Debug, PartialEq, Eq)]
pub(crate) enum Rule {
    /// One of the UIDs of the list is one of the stored UIDs.
    UidList,
    /// One of the stored values is like the pattern of the key.
    WildCards,
    /// The stored text, which is one value, is like the pattern of the key.
    WildCardsInText,
    /// The stored moment is that of the key, or is in its range.
    Range,
    /// One of the stored values is equal to that of the key.
    OneOfValues,
    /// The stored text is equal to that of the key.
    WholeValue,
}

/// Returns the rule for a value representation.
pub(crate) fn rule_of(vr: Vr) -> Rule
    ensures { result ≡ rule_of (text_vr vr) }
{
    match vr {
        Vr::Ui => Rule::UidList,
        Vr::Ae | Vr::Cs | Vr::Lo | Vr::Pn | Vr::Sh | Vr::Uc => Rule::WildCards,
        Vr::Lt | Vr::St | Vr::Ut => Rule::WildCardsInText,
        Vr::Dt => Rule::Range,
        Vr::As | Vr::Da | Vr::Ds | Vr::Is | Vr::Tm => Rule::OneOfValues,
        _ => Rule::WholeValue,
    }
}
