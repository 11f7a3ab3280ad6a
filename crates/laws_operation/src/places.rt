//! Which files live, and where their pages are.

ghost use Rattle.laws_operation.specs.OnceLaws.{WholePackCarriesOnce};
ghost use Rattle.laws_operation.specs.PlaceLaws.{CarriedInPlace, FileLivesInAPlace, FileThatDoesNotLiveHasNoPage, ModelHasTheLiving, NewSerialNamesNoLivingFile, NoneAboveTheLastSerial, SerialKeepsPlaces, UncarriedPageHasNoPlace, ValuesKeepPlaces};

/// A whole pack carries each page once.
pub fn whole_pack_carries_once()
    ensures { WholePackCarriesOnce }
{}

/// On any pack a file lives if and only if its leader page has a place.
pub fn file_lives_in_a_place()
    ensures { FileLivesInAPlace }
{}

/// On any pack a page that no sector carries has no place.
pub fn uncarried_page_has_no_place()
    ensures { UncarriedPageHasNoPlace }
{}

/// On a whole pack whichever sector carries a page is its place.
pub fn carried_in_place()
    ensures { CarriedInPlace }
{}

/// On a whole pack no file with a serial above the last one given out lives.
pub fn none_above_the_last_serial()
    ensures { NoneAboveTheLastSerial }
{}

/// On any pack the model has, of all files but DiskDescriptor, exactly those that live.
pub fn model_has_the_living()
    ensures { ModelHasTheLiving }
{}

/// After values, wherever they are written, the same files of any pack live and each page has the same place.
pub fn values_keep_places()
    ensures { ValuesKeepPlaces }
{}

/// After a new serial the same files of any pack live and each page has the same place.
pub fn serial_keeps_places()
    ensures { SerialKeepsPlaces }
{}

/// On a whole pack, after a new serial above the last one given out, no file with this serial lives.
pub fn new_serial_names_no_living_file()
    ensures { NewSerialNamesNoLivingFile }
{}

/// On a whole pack no page of a file that doesn't live has a place.
pub fn file_that_does_not_live_has_no_page()
    ensures { FileThatDoesNotLiveHasNoPage }
{}
