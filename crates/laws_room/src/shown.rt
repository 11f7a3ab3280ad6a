//! What is shown if each file has a name.

ghost use Rattle.laws_room.specs.ShownLaws.{NamedFilesAreShownAsViewed, SettlingAgainChangesNothing, SoundPackShowsItsView};

/// A view that was settled is left as it is if it is settled again.
pub fn settling_again_changes_nothing()
    ensures { SettlingAgainChangesNothing }
{}

/// The view of any model whose files all have entries is settled.
pub fn named_files_are_shown_as_viewed()
    ensures { NamedFilesAreShownAsViewed }
{}

/// A sound pack shows the view of what it is read as.
pub fn sound_pack_shows_its_view()
    ensures { SoundPackShowsItsView }
{}
