// What holds of full names, of names and of numbers in text: each law is what a function of its name ensures. The
// functions do nothing.
ghost use Rattle.std.specs.Prelude.{◌≡◌};
ghost use Rattle.alto_words.specs.declared.fid.Fid.{Fid};
ghost use Rattle.alto_words.specs.Fid.{fid_cmp};
ghost use Rattle.alto_words.specs.Laws.{SerialReadsBack, MarkSaysDirectory, StoredByForm, BareIsStored, StoredIsMade, ParsedIsStored, StoredIsStated, NewestIsBare, OrderIsTotal, PrefixComesFirst, OrderAgreesWithSame, SameByBaseAndVersion, OrderByBaseAndVersion, NewerComesLater, SuffixedIsStored, LengthSuffixed, LostIsStored, LengthLost, NumberReadsBack, HexReadsBack};

use crate::Fid;

/// Full names that are compared, or kept in an ordered map, stand in the order of `fid_cmp`: by high word, low word and version.
pub fn full_names_are_ordered()
    ensures { (f : Fid) → (g : Fid) → ⟦<Fid as Ord>⟧.cmp f g ≡ fid_cmp f g }
{}

/// The serial of the ordinary file of a serial below 2^31 is that serial, and so is that of the directory.
pub fn serial_reads_back()
    ensures { SerialReadsBack }
{}

/// The directory of a serial has the directory mark, and the ordinary file of a serial below 2^31 hasn't.
pub fn mark_says_directory()
    ensures { MarkSaysDirectory }
{}

/// A stored name is a bare name, or a bare name's text with `!` and a version from 2 on.
pub fn stored_by_form()
    ensures { StoredByForm }
{}

/// A bare name is a stored name, its own base, and version 1 of it.
pub fn bare_is_stored()
    ensures { BareIsStored }
{}

/// A stored name is the version of its base that it says, and no other version of any bare name.
pub fn stored_is_made()
    ensures { StoredIsMade }
{}

/// What a text stands for is a stored name.
pub fn parsed_is_stored()
    ensures { ParsedIsStored }
{}

/// Each stored name is what its base, `!` and its version stand for.
pub fn stored_is_stated()
    ensures { StoredIsStated }
{}

/// What is wanted in its newest version is a bare name.
pub fn newest_is_bare()
    ensures { NewestIsBare }
{}

/// The order of names is total.
pub fn order_is_total()
    ensures { OrderIsTotal }
{}

/// A bare name comes before a longer one that begins with it, in any case of its letters.
pub fn prefix_comes_first()
    ensures { PrefixComesFirst }
{}

/// Two names are tied in the order if and only if they are the same.
pub fn order_agrees_with_same()
    ensures { OrderAgreesWithSame }
{}

/// Stored names are the same if and only if their bases are and their versions are equal.
pub fn same_by_base_and_version()
    ensures { SameByBaseAndVersion }
{}

/// Stored names are ordered by their bases in lower case, and then by their versions as numbers.
pub fn order_by_base_and_version()
    ensures { OrderByBaseAndVersion }
{}

/// Of one base, the newer version comes later.
pub fn newer_comes_later()
    ensures { NewerComesLater }
{}

/// A stored name with a number in it is a stored name.
pub fn suffixed_is_stored()
    ensures { SuffixedIsStored }
{}

/// How long a name with a number in it is.
pub fn length_suffixed()
    ensures { LengthSuffixed }
{}

/// The name that stands for one that can't be read is a stored name.
pub fn lost_is_stored()
    ensures { LostIsStored }
{}

/// A name that stands for one that can't be read has 6 to 16 characters.
pub fn length_lost()
    ensures { LengthLost }
{}

/// What `push_number` writes of a number below 2^32, `read_number` reads as that number.
pub fn number_reads_back()
    ensures { NumberReadsBack }
{}

/// What `push_hex` writes of one byte or more, `read_hex` reads as those bytes.
pub fn hex_reads_back()
    ensures { HexReadsBack }
{}
