// Suffixes that are known to be taken, so that they aren't asked for again.
ghost use Rattle.std.specs.Prelude.{◌≡◌, ◌≤◌, ◌+◌, OnOk};
ghost use Rattle.std.specs.FinMap.{FinMap};
ghost use Rattle.alto_words.specs.Fid.{fid_cmp};
ghost use Rattle.pack_model.specs.showing.View.{Home};
ghost use Rattle.kept_names.specs.Passed.{suffix_in_root, passed_of, IsPassed, AreTaken};

use crate::names::QualifiedName;
use alto_words::{Fid, Memory, Name};
use std::alloc::Global;
use std::collections::BTreeMap;

/// How many suffixes of names, counted from the first, are known to be taken in SysDir.
#[derive(Drop)]
pub struct Passed {
    /// By the first one: names that have it in common have all later ones in common, which keep no more of a name.
    counts: BTreeMap<QualifiedName, u32>,
}

impl Passed {
    /// An empty map: of no name a suffix is known to be taken. It takes no memory.
    pub fn new(alloc: Global) -> Passed
        ensures { (homes : FinMap fid_cmp Home) → IsPassed homes result }
    {
        Passed {
            counts: BTreeMap::new(alloc),
        }
    }

    /// How many suffixes of a name, from this first one on, are known to be taken.
    pub(crate) fn count(&self, name: Name, first: u32) -> u32
        requires least { 1 ≤ first }
        requires most { first ≤ 65535 }
        ensures { result ≡ passed_of self.now name first }
    {
        self.counts
            .get(&suffix_in_root(name, first))
            .copied()
            .unwrap_or(0)
    }

    /// Keeps that so many suffixes of a name, from this first one on, are taken.
    pub(crate) fn keep(&mut self, name: Name, first: u32, count: u32) -> Result<(), Memory>
        requires least { 1 ≤ first }
        requires most { first ≤ 65535 }
        ensures kept { OnOk result (passed_of self.new name first ≡ count) }
        ensures passed { (homes : FinMap fid_cmp Home) → IsPassed homes self.old → AreTaken homes name first (first + count) → OnOk result (IsPassed homes self.new) }
    {
        self.counts.insert(suffix_in_root(name, first), count)?;
        Ok(())
    }
}

/// A name with a suffix, in SysDir.
fn suffix_in_root(name: Name, suffix: u32) -> QualifiedName
    requires least { 1 ≤ suffix }
    requires most { suffix ≤ 65535 }
    ensures { result ≡ suffix_in_root name suffix }
{
    QualifiedName {
        directory: Fid::SYS_DIR,
        name: name.suffixed(suffix),
    }
}
