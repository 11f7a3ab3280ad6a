// The order of names in a listing.
ghost use Rattle.std.specs.Prelude.{◌≡◌};
ghost use Rattle.std.specs.Ordering.{on, eq_by_cmp, as_partial_cmp};
ghost use Rattle.std.specs.Cmp.{partial_equiv_from_equiv, eq_by_cmp_equiv, partial_order_from_total};
ghost use Rattle.std.specs.Cmp.Rules.{comparing};
ghost use Rattle.std.proofs.Common.{rules};
ghost use Rattle.alto_words.specs.Names.{folded_cmp};
ghost use Rattle.executive.specs.Orders.{listed_total};

use alto_words::Name;
use std::cmp::Ordering;

/// A name in a listing.
#[derive(Drop)]
pub(crate) struct Listed {
    pub name: Name,
}

impl PartialEq for Listed {
    ghost eq = { eq_by_cmp (on (λ l. l.name) folded_cmp) };

    ghost laws = { partial_equiv_from_equiv (eq_by_cmp_equiv listed_total) };

    fn eq(&self, other: &Listed) -> bool {
        self.cmp(other).is_eq()
    }
}

impl Eq for Listed {
    ghost laws = { eq_by_cmp_equiv listed_total };
}

impl PartialOrd for Listed {
    ghost partial_cmp = { as_partial_cmp (on (λ l. l.name) folded_cmp) };

    ghost laws = { partial_order_from_total listed_total };

    fn partial_cmp(&self, other: &Listed) -> Option<Ordering> {
        Some(self.cmp(other))
    }
}

impl Ord for Listed {
    ghost cmp = { on (λ l. l.name) folded_cmp };

    ghost total = { listed_total };

    ghost matches_partial_cmp = { Prim.search (comparing, rules) };

    ghost matches_eq = { Prim.search (comparing, rules) };

    fn cmp(&self, other: &Listed) -> Ordering {
        self.name.folded_cmp(&other.name)
    }
}
