//! Which packs the Scavenger takes, by the model that they are read as, and the free sectors of whole packs.

ghost use Rattle.laws_room.specs.RoomLaws.{EachSectorIsUsedOrFree, FreeIsTheRoom, FreeSectorsAreThoseFound, ScavengeableByModel, ScavengeableIsUnrefused, SoundNeedsNothing};

/// Where sector 1 shows SysDir's leader and DiskDescriptor lives, a pack is scavengeable if and only if its model has room.
pub fn scavengeable_by_model()
    ensures { ScavengeableByModel }
{}

/// Any pack is scavengeable if and only if none of the refusals of a scavenge holds.
pub fn scavengeable_is_unrefused()
    ensures { ScavengeableIsUnrefused }
{}

/// On a whole pack the available sectors are the free ones, those in use are the pages of all files, and its model has room for as many
/// pages as sectors are free.
pub fn free_is_the_room()
    ensures { FreeIsTheRoom }
{}

/// Each sector of a whole pack is in use if and only if it is good and not free, and available if and only if it is free.
pub fn each_sector_is_used_or_free()
    ensures { EachSectorIsUsedOrFree }
{}

/// The sectors of a pack whose labels are found to be free are as many as its free sectors.
pub fn free_sectors_are_those_found()
    ensures { FreeSectorsAreThoseFound }
{}

/// A sound pack needs nothing, and is scavengeable.
pub fn sound_needs_nothing()
    ensures { SoundNeedsNothing }
{}
