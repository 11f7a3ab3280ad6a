// The laws of who bears a page, and of the living files of a pack.
ghost use Rattle.pack_laws.specs.FileLaws.{FirstIsBears, LeadersAndPagesAreBorne, PlacesAreLowest, StoredFilesAreLeadersAndBytes};

/// The first answer of a list is that of the place that bears it: this place answers, and no lower one does.
pub fn first_is_bears<S, X>()
    ensures { FirstIsBears S X }
{}

/// A file's leader, and each of its pages, is what the lowest sector shows that shows one.
pub fn leaders_and_pages_are_borne()
    ensures { LeadersAndPagesAreBorne }
{}

/// The place of a page is the lowest sector whose label carries it; where it has none no sector carries it.
pub fn places_are_lowest()
    ensures { PlacesAreLowest }
{}

/// The stored files of a pack are the files that live, each with its leader and its bytes.
pub fn stored_files_are_leaders_and_bytes()
    ensures { StoredFilesAreLeadersAndBytes }
{}
