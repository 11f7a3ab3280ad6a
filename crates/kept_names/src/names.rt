// The names that are kept, each of another file: by file, by directory and name, and in the order in which they are shown.
ghost use Rattle.std.specs.Prelude.{◌≡◌, None, OnOk};
ghost use Rattle.std.specs.BTreeSet.{contains};
ghost use Rattle.std.specs.Ordering.{eq_by_cmp, as_partial_cmp};
ghost use Rattle.std.specs.Cmp.{partial_equiv_from_equiv, eq_by_cmp_equiv, partial_order_from_total};
ghost use Rattle.std.specs.Cmp.Rules.{comparing};
ghost use Rattle.std.specs.FinMap.{FinMap, empty, get, insert};
ghost use Rattle.std.proofs.Common.{rules};
ghost use Rattle.alto_words.specs.declared.fid.Fid.{Fid};
ghost use Rattle.alto_words.specs.Fid.{fid_cmp};
ghost use Rattle.pack_model.specs.showing.View.{Home};
ghost use Rattle.kept_names.specs.Homes.{qualified_cmp, home_at, StandsFor};
ghost use Rattle.kept_names.specs.Orders.{qualified_total};

use alto_words::{Fid, Memory, Name};
use std::alloc::Global;
use std::cmp::Ordering;
use std::collections::BTreeSet;

/// A name with its directory. Two that differ by the case of letters alone are one.
#[derive(Clone, Copy)]
pub struct QualifiedName {
    /// The directory.
    pub directory: Fid,
    /// The name.
    pub name: Name,
}

impl PartialEq for QualifiedName {
    ghost eq = { eq_by_cmp qualified_cmp };

    ghost laws = { partial_equiv_from_equiv (eq_by_cmp_equiv qualified_total) };

    fn eq(&self, other: &QualifiedName) -> bool {
        self.cmp(other).is_eq()
    }
}

impl Eq for QualifiedName {
    ghost laws = { eq_by_cmp_equiv qualified_total };
}

impl PartialOrd for QualifiedName {
    ghost partial_cmp = { as_partial_cmp qualified_cmp };

    ghost laws = { partial_order_from_total qualified_total };

    fn partial_cmp(&self, other: &QualifiedName) -> Option<Ordering> {
        Some(self.cmp(other))
    }
}

impl Ord for QualifiedName {
    ghost cmp = { qualified_cmp };

    ghost total = { qualified_total };

    ghost matches_partial_cmp = { Prim.search (comparing, rules) };

    ghost matches_eq = { Prim.search (comparing, rules) };

    fn cmp(&self, other: &QualifiedName) -> Ordering {
        self.directory
            .cmp(&other.directory)
            .then(self.name.folded_cmp(&other.name))
    }
}

/// A name in a directory, and the file that it names there.
#[derive(PartialEq, Eq, PartialOrd, Ord, Drop)]
pub struct Entry {
    /// Where the file is named, and how.
    pub name: QualifiedName,
    /// The file.
    pub fid: Fid,
}

/// The entries that are kept, each of another file. Those of the system files aren't among them.
#[derive(Drop)]
pub struct Names {
    /// The files that they name.
    named: BTreeSet<Fid>,
    /// Their names.
    taken: BTreeSet<QualifiedName>,
    /// The entries themselves, in the order in which they are shown.
    pub kept: BTreeSet<Entry>,
}

impl Names {
    /// No entries; they take no memory.
    pub fn new(alloc: Global) -> Names
        ensures { StandsFor result (empty {R = fid_cmp}) }
    {
        Names {
            named: BTreeSet::new(alloc),
            taken: BTreeSet::new(alloc),
            kept: BTreeSet::new(alloc),
        }
    }

    /// Whether the file has a name.
    pub fn has(&self, fid: Fid) -> bool
        ensures { result ≡ contains fid_cmp self.now.named fid }
    {
        self.named.contains(&fid)
    }

    /// Whether an entry has this name in this directory.
    pub fn is_taken(&self, name: &QualifiedName) -> bool
        ensures { result ≡ contains qualified_cmp self.now.taken name.now }
    {
        self.taken.contains(name)
    }

    /// Keeps the entry of a file that has no name.
    ///
    /// Memory: none was left for the entry. The entries then stand for nothing any more.
    pub fn add(&mut self, entry: Entry) -> Result<(), Memory>
        ensures { (homes : FinMap fid_cmp Home) → StandsFor self.old homes → get homes entry.fid ≡ None → OnOk result (StandsFor self.new (insert homes entry.fid (home_at entry.name))) }
    {
        self.named.insert(entry.fid)?;
        self.taken.insert(entry.name)?;
        self.kept.insert(entry)?;
        Ok(())
    }
}
