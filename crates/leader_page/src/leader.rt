// The value of a leader page, in words:
//   0, 1: created, in seconds since the start of 1901; of two words the high one comes first
//   2, 3: written
//   4, 5: read
//   6 to 25: name: a byte with its length, its characters, and bytes that don't count
//   26 to 245: rest: 210 words of properties and 10 spare ones, kept as they are
//   246 to 255: hints: property bounds; the flag of pages in a row; the home directory; the last page
// Leader pages with dates, names and hints are those of the SOSP 1979 paper; the words are this project's choice.
ghost use Rattle.std.specs.Prelude.{◌≡◌, ◌+◌, ◌<◌, ◌≤◌, ◌∷◌, length, take, drop, true, cond, Some, None};
ghost use Rattle.alto_words.specs.declared.fid.Fid.{Fid};
ghost use Rattle.alto_words.specs.Names.{is_stored_name};
ghost use Rattle.disk_records.specs.Words.{double};
ghost use Rattle.leader_page.specs.Pages.{said};
ghost use Rattle.pack_model.specs.reading.Bytes.{put_at};
ghost use Rattle.pack_model.specs.reading.Leaders.{is_readable, spelled_name, leader_words, leader_of};
ghost use Rattle.pack_model.specs.operations.PageWords.{filled, halves, name_words};

use alto_words::{Fid, Name};
use disk_records::{bytes_into_words, words_into_bytes};

/// The first of the two words that say when the file was made.
const CREATED: usize = 0;

/// The first of those that say when it was written.
const WRITTEN: usize = 2;

/// The first of those that say when it was read.
const READ: usize = 4;

/// The word where the name begins.
const NAME: usize = 6;

/// The word where `rest` begins.
const REST: usize = 26;

/// The word where the hints begin.
const HINTS: usize = 246;

/// What the leader page of a file says. The dates are in seconds since the start of 1901.
#[derive(Clone, Copy, Debug, PartialEq, Eq)]
pub struct Leader {
    /// When the file was made.
    pub created: u32,
    /// When it was written last.
    pub written: u32,
    /// When it was read last. Reading doesn't change it here.
    pub read: u32,
    /// Its name, as it is stored. A file without an entry is entered under it.
    pub name: Name,
    /// Properties (210 words) and spare words (10). They are 0 in a new leader and kept from then on.
    pub rest: [u16; 220],
    /// Property bounds; a number that isn't 0 where the pages stand in a row; the home directory's serial high, serial low,
    /// version, 0 and leader address; the last page's address, number and bytes. They may say anything.
    pub hints: [u16; 10],
}

impl Leader {
    ghost use Rattle.leader_page.specs.Pages.{said, Says, IsDecoded};
    ghost use Rattle.pack_model.specs.reading.Leaders.{leader_of};
    ghost use Rattle.pack_model.specs.operations.PageWords.{leader_value};

    /// The leader that the value of a leader page says. None if and only if words 6 to 25 spell no stored name: the length byte
    /// isn't 2 to 39, or so many characters don't form one. Bytes after the name are ignored.
    pub fn decode(value: &[u16; 256]) -> Option<Leader>
        ensures { IsDecoded value.now result }
    {
        let name = read_name(value)?;
        Some(under(name, value))
    }

    /// The leader of the file with this full name whose leader page has this value: the one that `decode` answers, and where it
    /// answers None, what the value says under `Name::lost` of the file's serial. It takes no memory.
    pub fn of_file(fid: Fid, value: &[u16; 256]) -> Leader
        ensures leader { said result ≡ leader_of fid value.now }
        ensures hints { result.hints ≡ drop 246 value.now }
    {
        let name = read_name(value).unwrap_or_else(|| Name::lost(fid.serial()));
        under(name, value)
    }

    /// The value of the leader page that says this leader. The bytes after the name are 0.
    pub fn encode(&self) -> [u16; 256]
        ensures value { result ≡ leader_value (said self.now) self.now.hints }
        ensures says { Says result (said self.now) self.now.hints }
        ensures name { take 20 (drop 6 result) ≡ name_words self.now.name }
    {
        let mut value = [0; 256];
        put(&mut value, CREATED, &halves(self.created));
        put(&mut value, WRITTEN, &halves(self.written));
        put(&mut value, READ, &halves(self.read));
        put(&mut value, NAME, &name_words(&self.name));
        put(&mut value, REST, &self.rest);
        put(&mut value, HINTS, &self.hints);
        value
    }
}

/// Words 6 to 25 of the leader page of a file with this name: a byte with its length, its characters, zeros.
pub fn name_words(name: &Name) -> [u16; 20]
    ensures words { result ≡ name_words name.now }
    ensures stored { is_stored_name name.now ≡ true }
{
    let bytes = name_bytes(name);
    let mut words = [0; 20];
    bytes_into_words(&bytes, &mut words);
    words
}

/// The bytes of these words.
fn name_bytes(name: &Name) -> [u8; 40]
    ensures bytes { result ≡ filled 40 (length name.now ∷ name.now) }
    ensures stored { is_stored_name name.now ≡ true }
{
    let text = name.as_bytes();
    let mut bytes = [0; 40];
    bytes[0] = text.len() as u8;
    bytes[1..1 + text.len()].copy_from_slice(text);
    bytes
}

/// The name that words 6 to 25 spell. None if and only if it isn't a stored name.
fn read_name(value: &[u16; 256]) -> Option<Name>
    ensures { result ≡ cond (is_readable (leader_words value.now)) (Some (spelled_name (leader_words value.now))) None }
{
    let mut bytes = [0; 40];
    words_into_bytes(&value[NAME..REST], &mut bytes);
    let length = bytes[0] as usize;
    let text = bytes[1..].get(..length)?;
    Name::stored(text)
}

/// What a value says except its name, under this name.
fn under(name: Name, value: &[u16; 256]) -> Leader
    ensures leader { (f : Fid) → said result ≡ record (leader_of f value.now) { name = name } }
    ensures hints { result.hints ≡ drop 246 value.now }
{
    let mut rest = [0; 220];
    rest.copy_from_slice(&value[REST..HINTS]);
    let mut hints = [0; 10];
    hints.copy_from_slice(&value[HINTS..]);
    Leader {
        created: double(value, CREATED),
        written: double(value, WRITTEN),
        read: double(value, READ),
        name,
        rest,
        hints,
    }
}

/// The number of two words, the high one first.
fn double(value: &[u16; 256], at: usize) -> u32
    requires { at < 255 }
    ensures { result ≡ double value.now at }
{
    value[at] as u32 * 65536 + value[at + 1] as u32
}

/// A number as two words, the high one first.
fn halves(number: u32) -> [u16; 2]
    ensures { result ≡ halves number }
{
    [(number / 65536) as u16, (number % 65536) as u16]
}

/// Puts words in the place of others, from a word on.
fn put(value: &mut [u16; 256], at: usize, words: &[u16])
    requires { at + length words.now ≤ 256 }
    ensures { value.new ≡ put_at at words.now value.old }
{
    value[at..at + words.len()].copy_from_slice(words);
}
