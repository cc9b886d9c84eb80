//! Tags of keys with the rules by which their texts are matched.

use crate::faults::key_rule;
use crate::rule::Rule;
use std::marker::Model;
use ups_dataset::Tag;

/// The tag of a key and its rule, which is looked up once. A contract sees the tag.
#[derive(Drop)]
pub(crate) struct KeyTag {
    tag: Tag,
    rule: Rule,
}

impl Model for KeyTag {
    ghost use Rattle.std.specs.Prelude.{◌≡◌};
    ghost use Rattle.ups_dataset.specs.declared.tag.Tag.{Tag};
    ghost use Rattle.ups_match.specs.Matching.{key_rule};

    ghost Value = { Tag };

    ghost view = { λ k. k.tag };

    ghost invariant = { λ k. k.rule ≡ key_rule k.tag };
}

impl KeyTag {
    ghost use Rattle.std.specs.Prelude.{◌≡◌};
    ghost use Rattle.ups_match.specs.Matching.{key_rule};

    /// Returns a tag with its rule.
    pub(crate) fn of(tag: Tag) -> KeyTag
        ensures { result ≡ tag }
    {
        KeyTag {
            tag,
            rule: key_rule(tag),
        }
    }

    /// Returns the tag.
    pub(crate) fn tag(&self) -> Tag
        ensures { result ≡ self.now }
    {
        self.tag
    }

    /// Returns the rule for a key that is not a sequence.
    pub(crate) fn rule(&self) -> Rule
        ensures { result ≡ key_rule self.now }
    {
        self.rule
    }
}
