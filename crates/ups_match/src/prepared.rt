//! Keys that are prepared to be tried on many data sets.

use crate::key_tag::KeyTag;
use crate::uids::UidList;
use std::alloc::Allocator;
use std::marker::Model;

/// The value that a prepared key asks for.
#[derive(Drop)]
#[cycle(prepared)]
pub(crate) enum PreparedValue<A: Allocator + Copy> {
    /// One of the UIDs of a long list.
    Uids(UidList<A>),
    /// A text. It has no padding after it unless it is a list of UIDs, and no two adjacent `*` if these are wild cards.
    Text(Vec<u8, A>),
    /// An item that meets these keys.
    Item(Prepared<A>),
}

/// A prepared key.
#[derive(Drop)]
#[cycle(prepared)]
pub(crate) struct PreparedKey<A: Allocator + Copy> {
    pub(crate) tag: KeyTag,
    pub(crate) value: PreparedValue<A>,
}

/// The prepared keys of a data set, without the universal ones. A contract sees them as elements.
#[derive(Drop)]
#[cycle(prepared)]
pub(crate) struct Prepared<A: Allocator + Copy> {
    keys: Vec<PreparedKey<A>, A>,
}

impl<A: Allocator + Copy> Model for Prepared<A> {
    ghost use Rattle.std.specs.Prelude.{List};
    ghost use Rattle.ups_dataset.specs.Data.{El, weight};

    ghost Value = { List El };

    ghost use Rattle.ups_dataset.specs.Code.{set_code};

    ghost coded = { set_code };

    ghost use Rattle.std.specs.Prelude.{map};
    ghost use Rattle.ups_match.specs.Prepared.{key_view};

    ghost view = { λ p. map key_view p.keys.items };

    ghost size = { weight };

    ghost use Rattle.ups_match.specs.PreparedFalls.{keys_fall};

    ghost size_decreases = { λ a h. keys_fall ⟦<A as Allocator>⟧ a.keys.items };
}

impl<A: Allocator + Copy> Prepared<A> {
    ghost use Rattle.std.specs.Prelude.{◌≡◌, map};
    ghost use Rattle.ups_match.specs.Prepared.{key_view};

    /// Returns the prepared keys of a vector.
    pub(crate) fn from_vec(keys: Vec<PreparedKey<A>, A>) -> Prepared<A>
        ensures { result ≡ map key_view keys.items }
    {
        Prepared { keys }
    }

    /// Returns the keys, in the order of their tags.
    pub(crate) fn keys(&self) -> &[PreparedKey<A>]
        ensures { map key_view result.now ≡ self.now }
    {
        self.keys.as_slice()
    }
}
