//! The parts of a pack whose pages are mended.

ghost use Rattle.laws_names.specs.PartLaws.{MendedHasParts};

/// A pack whose pages are mended has all parts of one: no page is carried twice, directories end with their slots, each good sector is free
/// or in use, sector 1 is SysDir's leader page, and last pages are there.
pub fn mended_has_parts()
    ensures { MendedHasParts }
{}
