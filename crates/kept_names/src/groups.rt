// The suffixes of names, in groups.
ghost use Rattle.std.specs.Prelude.{◌≤◌};

/// More suffixes than this are never asked for.
pub(crate) const MOST_SUFFIXES: u32 = 65535;

/// Suffixes with equally many digits, which keep equally many characters of a name, and its version: names that have the first of
/// them in common, without regard to case, have all of them in common.
#[derive(Clone, Copy)]
pub(crate) struct Group {
    pub(crate) first: u32,
    /// The number after the last one.
    pub(crate) end: u32,
    ghost least: { 1 ≤ first },
    ghost ordered: { first ≤ end },
    ghost most: { end ≤ 65535 },
}

/// All suffixes that are asked for, in order.
pub(crate) const GROUPS: [Group; 5] = [
    Group { first: 1, end: 10 },
    Group {
        first: 10,
        end: 100,
    },
    Group {
        first: 100,
        end: 1_000,
    },
    Group {
        first: 1_000,
        end: 10_000,
    },
    Group {
        first: 10_000,
        end: MOST_SUFFIXES,
    },
];
