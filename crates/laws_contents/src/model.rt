//! The files of the model by the values of their pages.

ghost use Rattle.laws_contents.specs.ModelContents.{DirectoryIsItsPages, LeaderIsItsValue, ModelLengthsAreOfBytes, OrdinaryFileIsItsPages, WholeDirectoryIsAllSlots, WholeLeaderIsReadable};

/// On any pack a file whose leader page has a place lives, and its leader is what the value there says.
pub fn leader_is_its_value()
    ensures { LeaderIsItsValue }
{}

/// On a whole pack the name in each leader can be read.
pub fn whole_leader_is_readable()
    ensures { WholeLeaderIsReadable }
{}

/// On any pack an ordinary file of the model is what its leader's value says and the bytes of its pages.
pub fn ordinary_file_is_its_pages()
    ensures { OrdinaryFileIsItsPages }
{}

/// On any pack a directory of the model is what its leader's value says and the slots that are kept.
pub fn directory_is_its_pages()
    ensures { DirectoryIsItsPages }
{}

/// On a whole pack the words of a directory are slots to their end, and its bytes are whole words.
pub fn whole_directory_is_all_slots()
    ensures { WholeDirectoryIsAllSlots }
{}

/// On a whole and tidy pack the length of each file of the model, of a directory that of its slots, is that of its bytes.
pub fn model_lengths_are_of_bytes()
    ensures { ModelLengthsAreOfBytes }
{}
