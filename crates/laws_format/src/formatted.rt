//! The pack that formatting writes, of any shape: where every session begins.

ghost use Rattle.laws_format.specs.Formatted.{FormattedDescriptorFits, FormattedLeadersAreHandy, FormattedPackBeginsASession, FormattedPackHasFreeSectors, FormattedPackIsEmpty, FormattedPackShowsNothing};
ghost use Rattle.laws_format.specs.Writing.{FormattedSectorsStand, FormattingGoesOn, FormattingLeavesItsPack, SectorsComeInPlace};

/// The pack that formatting writes is sound and clean, all its hints are true, and it carries no page twice.
pub fn formatted_pack_begins_a_session()
    ensures { FormattedPackBeginsASession }
{}

/// The pack that formatting writes is read as the model without files.
pub fn formatted_pack_is_empty()
    ensures { FormattedPackIsEmpty }
{}

/// Nothing is shown of the pack that formatting writes.
pub fn formatted_pack_shows_nothing()
    ensures { FormattedPackShowsNothing }
{}

/// The pack that formatting writes has a sector for each address; free are all sectors after those in use, and no others, in each meaning
/// of a free one; they are as many as formatting answers, and its map says so.
pub fn formatted_pack_has_free_sectors()
    ensures { FormattedPackHasFreeSectors }
{}

/// In the pack that formatting writes DiskDescriptor fits, with the last serial 2, the clean mark and its pages from sector 4 on, and says
/// the map of the free sectors.
pub fn formatted_descriptor_fits()
    ensures { FormattedDescriptorFits }
{}

/// In the pack that formatting writes, the hints of leader pages are handy, whatever the cache, if the cache is.
pub fn formatted_leaders_are_handy()
    ensures { FormattedLeadersAreHandy }
{}

/// On any pack whole sectors that are written come in the place of as many others.
pub fn sectors_come_in_place()
    ensures { SectorsComeInPlace }
{}

/// On any pack with a sector for each address the record writes of formatting leave the pack that formatting writes.
pub fn formatting_leaves_its_pack()
    ensures { FormattingLeavesItsPack }
{}

/// The record writes of a prefix of the sectors that formatting writes and of the next one are those of the prefix with this one.
pub fn formatting_goes_on()
    ensures { FormattingGoesOn }
{}

/// Each sector of the pack that formatting writes, by its place.
pub fn formatted_sectors_stand()
    ensures { FormattedSectorsStand }
{}
