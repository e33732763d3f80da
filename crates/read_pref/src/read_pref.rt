ghost use Rattle.std.specs.Prelude.{◌≡◌, ◌↔◌, IfOk, IsErr, IsTrue};
ghost use Rattle.std.specs.List.{list_any};
ghost use Rattle.read_pref.specs.Preferences.{has_tags_on_primary, is_not_empty, IsPreference};

use crate::copies::copy_sets;
use crate::{Memory, Mode, TagSet, TagsOnPrimary};
use bson_doc::Rows;
use std::alloc::Global;
use std::marker::Model;

/// Which servers a read may go to: a mode, and tag sets of which the first that fits some server decides (Server Selection,
/// Read Preference).
#[derive(Debug, Drop)]
pub struct ReadPref {
    mode: Mode,
    tag_sets: Rows<TagSet>,
}

impl Model for ReadPref {
    ghost use Rattle.read_pref.specs.Preferences.{IsPreference, Preference};

    ghost Value = { Preference };

    ghost view = { λ p. record { mode = p.mode; tag_sets = p.tag_sets } };

    ghost invariant = { λ p. IsPreference (record { mode = p.mode; tag_sets = p.tag_sets }) };
}

impl ReadPref {
    /// The preference of a mode and tag sets, refused exactly where the mode is primary and some tag set is not empty.
    pub fn new(mode: Mode, tag_sets: Rows<TagSet>) -> Result<ReadPref, TagsOnPrimary>
        ensures refused { IsErr result ↔ IsTrue (has_tags_on_primary (record { mode = mode; tag_sets = tag_sets })) }
        ensures made { IfOk result (λ p. p ≡ record { mode = mode; tag_sets = tag_sets }) }
    {
        if mode == Mode::Primary && has_tags(tag_sets.as_slice()) {
            return Err(TagsOnPrimary);
        }
        Ok(ReadPref { mode, tag_sets })
    }

    /// The mode. A preference of mode primary has no tags.
    pub fn mode(&self) -> Mode
        ensures value { result ≡ self.now.mode }
        ensures kept { IsPreference self.now }
    {
        self.mode
    }

    /// The tag sets, in the order in which they are tried.
    pub fn tag_sets(&self) -> &Rows<TagSet>
        ensures { result.now ≡ self.now.tag_sets }
    {
        &self.tag_sets
    }

    /// An equal preference.
    pub fn copy(&self, alloc: Global) -> Result<ReadPref, Memory>
        ensures { IfOk result (λ p. p ≡ self.now) }
    {
        let tag_sets = copy_sets(alloc, self.tag_sets.as_slice())?;
        Ok(ReadPref {
            mode: self.mode,
            tag_sets,
        })
    }
}

/// Whether some tag set is not empty.
fn has_tags(tag_sets: &[TagSet]) -> bool
    ensures { result ≡ list_any is_not_empty tag_sets.now }
{
    tag_sets.iter().any(|tags| tags.len() > 0)
}
