// Where a sector stands in the pack, and where in the file of its drive.
ghost use Rattle.std.specs.Prelude.{◌≡◌, ◌%◌};

/// The sectors of a cylinder.
pub(crate) const CYLINDER_SECTORS: u16 = 24;

/// Where a sector stands, at the same place of a cylinder by both numbers.
#[derive(Clone, Copy)]
pub(crate) struct Spot {
    /// Its virtual address in the pack.
    pub(crate) at: u16,
    /// How many sectors of the file of its drive are ahead of it.
    pub(crate) ahead: u16,
    pub(crate) ghost same_place: { at % 24 ≡ ahead % 24 },
}
