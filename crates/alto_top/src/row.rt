// A row of the listing, and the order of rows.
ghost use Rattle.std.specs.Prelude.{◌≡◌};
ghost use Rattle.std.specs.Option.{option_cmp};
ghost use Rattle.std.specs.Ordering.{then_cmp, on, eq_by_cmp, as_partial_cmp};
ghost use Rattle.std.specs.Cmp.{partial_equiv_from_equiv, eq_by_cmp_equiv, partial_order_from_total};
ghost use Rattle.std.specs.Cmp.Rules.{comparing};
ghost use Rattle.std.proofs.Common.{rules};
ghost use Rattle.alto_words.specs.Fid.{fid_cmp};
ghost use Rattle.alto_words.specs.Names.{folded_cmp};
ghost use Rattle.alto_top.specs.Orders.{row_total};

use alto_words::Name;
use pack_reading::ShownName;
use std::cmp::Ordering;

/// A row of the listing: what is shown of one name.
#[derive(Drop)]
pub struct Row {
    /// The name in SysDir of the directory that has the name; None of SysDir itself.
    pub dir_name: Option<Name>,
    /// The name.
    pub named: ShownName,
    /// The file's length in bytes; None of a directory.
    pub length: Option<u64>,
}

impl PartialEq for Row {
    ghost eq = { eq_by_cmp (then_cmp (on (λ l. l.dir_name) (option_cmp folded_cmp)) (then_cmp (on (λ l. l.named.directory) fid_cmp) (then_cmp (on (λ l. l.named.name) folded_cmp) (on (λ l. l.named.fid) fid_cmp)))) };

    ghost laws = { partial_equiv_from_equiv (eq_by_cmp_equiv row_total) };

    fn eq(&self, other: &Row) -> bool {
        self.cmp(other).is_eq()
    }
}

impl Eq for Row {
    ghost laws = { eq_by_cmp_equiv row_total };
}

impl PartialOrd for Row {
    ghost partial_cmp = { as_partial_cmp (then_cmp (on (λ l. l.dir_name) (option_cmp folded_cmp)) (then_cmp (on (λ l. l.named.directory) fid_cmp) (then_cmp (on (λ l. l.named.name) folded_cmp) (on (λ l. l.named.fid) fid_cmp)))) };

    ghost laws = { partial_order_from_total row_total };

    fn partial_cmp(&self, other: &Row) -> Option<Ordering> {
        Some(self.cmp(other))
    }
}

impl Ord for Row {
    ghost cmp = { then_cmp (on (λ l. l.dir_name) (option_cmp folded_cmp)) (then_cmp (on (λ l. l.named.directory) fid_cmp) (then_cmp (on (λ l. l.named.name) folded_cmp) (on (λ l. l.named.fid) fid_cmp))) };

    ghost total = { row_total };

    ghost matches_partial_cmp = { Prim.search (comparing, rules) };

    ghost matches_eq = { Prim.search (comparing, rules) };

    fn cmp(&self, other: &Row) -> Ordering {
        compare_dirs(self.dir_name, other.dir_name).then(compare_names(&self.named, &other.named))
    }
}

/// SysDir comes first, and then each directory by its name.
fn compare_dirs(one: Option<Name>, other: Option<Name>) -> Ordering
    ensures { result ≡ option_cmp folded_cmp one other }
{
    match (one, other) {
        (None, None) => Ordering::Equal,
        (None, Some(_)) => Ordering::Less,
        (Some(_), None) => Ordering::Greater,
        (Some(one), Some(other)) => one.folded_cmp(&other),
    }
}

/// By directory, by name without regard to case, and by file.
fn compare_names(one: &ShownName, other: &ShownName) -> Ordering
    ensures { result ≡ then_cmp (on (λ n. n.directory) fid_cmp) (then_cmp (on (λ n. n.name) folded_cmp) (on (λ n. n.fid) fid_cmp)) one.now other.now }
{
    one.directory.cmp(&other.directory).then(
        one.name
            .folded_cmp(&other.name)
            .then(one.fid.cmp(&other.fid)),
    )
}
