//! Entries that are lacking on a pack whose pages are mended, and the page more that SysDir may need for one.

ghost use Rattle.laws_names.specs.LackingLaws.{LackingAreAdopted, NextMayBeEntered, NoRoomIsNone, NoneLackingIsNamed, RootWideningLeaves, WidenedHasRoom, WideningHasItsSector};

/// On a pack whose pages are mended each living file has an entry if none is lacking.
pub fn none_lacking_is_named()
    ensures { NoneLackingIsNamed }
{}

/// An entry that finds no room among the slots of a tidy pack's SysDir is placed nowhere.
pub fn no_room_is_none()
    ensures { NoRoomIsNone }
{}

/// On a pack whose pages are mended, and that can be scavenged, a sector other than sector 1 is free if the next entry that is lacking is
/// placed nowhere.
pub fn widening_has_its_sector()
    ensures { WideningHasItsSector }
{}

/// On a pack whose pages are mended SysDir has room for each entry of at most 256 words once it got a page more.
pub fn widened_has_room()
    ensures { WidenedHasRoom }
{}

/// On a pack whose pages are mended the next entry that is lacking may be entered: its file lives, it fits, and neither the file nor the
/// name stands anywhere.
pub fn next_may_be_entered()
    ensures { NextMayBeEntered }
{}

/// On a tidy pack whose pages are mended a page more for SysDir, where the next entry has no room, keeps, leaves the same lacking and each
/// entry kept where it stood, and no other sector free; then the next one has room.
pub fn root_widening_leaves()
    ensures { RootWideningLeaves }
{}

/// On a pack whose pages are mended the files among those that are lacking, except the system files, are as many as get a name.
pub fn lacking_are_adopted()
    ensures { LackingAreAdopted }
{}
