// Names of files, as they are stored.
ghost use Rattle.std.specs.Prelude.{◌≡◌, ◌≤◌, ◌++◌, ◌∷◌, [], None, true, IfSome, IfNone, nat_eq};
ghost use Rattle.std.specs.Cmp.{partial_equiv_from_equiv};
ghost use Rattle.std.specs.Cmp.Lexicographic.{pointwise, nat_list_eq_equiv};
ghost use Rattle.std.specs.List.{list_all};
ghost use Rattle.alto_words.specs.Names.{is_name_character, is_bare_name, is_stored_name, stored_in, name_in, bare_in, with_dot, without_dot, is_same_name, folded_cmp, suffixed, lost, base_of, version_of, with_version, after_mark, version_text};

use crate::characters::is_name_character;
use crate::text::{MAX_LENGTH, ShortText};
use crate::version::{mark_in, version_in, version_mark};
use itoa::Buffer;
use std::cmp::Ordering;
use std::marker::Model;

/// The most characters of a name before its final `.`.
const MAX_STEM: usize = MAX_LENGTH - 1;

/// The name of a file as it is stored: 2 to 39 characters, the last a `.`. A bare name has ASCII
/// letters, digits and `+ - . $` before that; it is version 1 of itself. `TEXT!n.` is version n of
/// the bare name `TEXT.`, its base: n is 2 to 65,534, in decimal without leading zeros. A `Name`
/// takes no memory. Contracts see it as the list of its bytes.
#[derive(Clone, Copy, Debug)]
pub struct Name {
    text: ShortText,
}

impl Model for Name {
    ghost use Rattle.std.specs.Prelude.{◌≡◌, ℕ, List, true};
    ghost use Rattle.alto_words.specs.Names.{is_stored_name};

    ghost Value = { List ℕ };

    ghost view = { λ n. n.text };

    ghost invariant = { λ n. is_stored_name n.text ≡ true };

    ghost inverse = { λ name. record { text = name } };
}

impl Name {
    /// The bytes of the name, the final `.` included.
    pub fn as_bytes(&self) -> &[u8]
        ensures value { result.now ≡ self.now }
        ensures stored { is_stored_name self.now ≡ true }
    {
        self.text.as_bytes()
    }

    /// The name that a text stands for: `TEXT` and `TEXT.` stand for the bare name `TEXT.`;
    /// `TEXT!n` and `TEXT!n.`, where TEXT may end with its `.`, for version n of it, with n from 1
    /// to 65,534 in decimal without leading zeros. None if and only if that isn't a stored name.
    pub fn parse(text: &[u8]) -> Option<Name>
        ensures { result ≡ name_in text.now }
    {
        match mark_in(text) {
            None => Name::with_stem(without_dot(text), 1),
            Some(at) => {
                let version = version_in(without_dot(&text[at + 1..]))?;
                Name::with_stem(without_dot(&text[..at]), version)
            }
        }
    }

    /// The bare name that a text without `!` stands for: `TEXT.`, of `TEXT` and of `TEXT.`. None if
    /// and only if the text has a `!` or that isn't a stored name.
    pub fn parse_bare(text: &[u8]) -> Option<Name>
        ensures value { result ≡ bare_in text.now }
        ensures bare { IfSome result (λ name. is_bare_name name ≡ true) }
    {
        match mark_in(text) {
            None => Name::parse(text),
            Some(_) => None,
        }
    }

    /// The name that is stored as these bytes. None if and only if they aren't a stored name: no
    /// final `.` is added, and version 1 isn't written out.
    pub fn stored(bytes: &[u8]) -> Option<Name>
        ensures { result ≡ stored_in bytes.now }
    {
        if has_name_characters(bytes) {
            return Name::unmarked(bytes);
        }
        match mark_in(bytes) {
            None => None,
            Some(at) => {
                let version = version_in(bytes[at + 1..].strip_suffix(b".".as_slice())?)?;
                if version == 1 {
                    return None;
                }
                Name::with_stem(&bytes[..at], version)
            }
        }
    }

    /// The name that is stored as these name characters, a bare one. None if and only if they
    /// aren't one.
    fn unmarked(bytes: &[u8]) -> Option<Name>
        requires { list_all is_name_character bytes.now ≡ true }
        ensures { result ≡ stored_in bytes.now }
    {
        let stem = bytes.strip_suffix(b".".as_slice())?;
        if stem.is_empty() || stem.len() > MAX_STEM {
            return None;
        }
        let mut text = ShortText::new();
        text.push(bytes);
        Some(Name { text })
    }

    /// The name of these bytes, a version and a final `.`. None if and only if that isn't a stored
    /// name.
    fn with_stem(stem: &[u8], version: u16) -> Option<Name>
        requires unmarked { after_mark stem.now ≡ None }
        requires least { 1 ≤ version }
        requires most { version ≤ 65534 }
        ensures { result ≡ stored_in (stem.now ++ version_text version ++ (46 ∷ [])) }
    {
        if stem.is_empty() || !has_name_characters(stem) {
            return None;
        }
        let mark = version_mark(version);
        if stem.len() > MAX_STEM - mark.as_bytes().len() {
            return None;
        }
        let mut text = ShortText::new();
        text.push(stem);
        text.push(mark.as_bytes());
        text.push(b".");
        Some(Name { text })
    }

    /// The bare name of which this name is a version.
    pub fn base(&self) -> Name
        ensures value { result ≡ base_of self.now }
        ensures bare { is_bare_name result ≡ true }
    {
        match mark_in(self.as_bytes()) {
            None => *self,
            Some(at) => {
                let mut text = ShortText::new();
                text.push(&self.as_bytes()[..at]);
                text.push(b".");
                Name { text }
            }
        }
    }

    /// Whether this is a bare name. Then it is its own base, and its version is 1.
    pub fn is_bare(&self) -> bool
        ensures { result ≡ is_bare_name self.now }
    {
        mark_in(self.as_bytes()).is_none()
    }

    /// The version of the name, 1 to 65,534: 1 where it states none.
    pub fn version(&self) -> u16
        ensures value { result ≡ version_of self.now }
        ensures stored { is_stored_name self.now ≡ true }
        ensures least { 1 ≤ result }
        ensures most { result ≤ 65534 }
    {
        let bytes = self.as_bytes();
        let Some(at) = mark_in(bytes) else {
            return 1;
        };
        let after = &bytes[at + 1..];
        match version_in(&after[..after.len() - 1]) {
            Some(version) => version,
            None => unreachable!(),
        }
    }

    /// The name of this version of a bare name. The version is 1 to 65,534; version 1 is the bare
    /// name itself. None if and only if more than 39 characters come out.
    pub fn with_version(&self, n: u16) -> Option<Name>
        requires bare { is_bare_name self.now ≡ true }
        requires least { 1 ≤ n }
        requires most { n ≤ 65534 }
        ensures { result ≡ with_version self.now n }
    {
        Name::with_stem(without_dot(self.as_bytes()), n)
    }

    /// Whether two names are equal without regard to the case of ASCII letters.
    pub fn same(&self, other: &Name) -> bool
        ensures { result ≡ is_same_name self.now other.now }
    {
        self.as_bytes().eq_ignore_ascii_case(other.as_bytes())
    }

    /// The order of names: that of their bases in lower case, a base that begins another first,
    /// and then that of their versions as numbers.
    pub fn folded_cmp(&self, other: &Name) -> Ordering
        ensures { result ≡ folded_cmp self.now other.now }
    {
        let base = self.base();
        let other_base = other.base();
        let own = base.as_bytes().iter().map(|c| c.to_ascii_lowercase());
        let others = other_base.as_bytes().iter().map(|c| c.to_ascii_lowercase());
        match own.cmp(others) {
            Ordering::Equal => self.version().cmp(&other.version()),
            unequal => unequal,
        }
    }

    /// The name that this one gives way to where it is taken: the first characters of its base,
    /// the base's `.` with them, as many as leave room in 39; then `$` and the number k in decimal;
    /// then the version, if the name states one; then `.`. k is 1 to 65,535.
    pub fn suffixed(&self, k: u32) -> Name
        requires least { 1 ≤ k }
        requires most { k ≤ 65535 }
        ensures { result ≡ suffixed self.now k }
    {
        let mut buffer = Buffer::new();
        let digits = buffer.format(k).as_bytes();
        let mark = version_mark(self.version());
        let base = self.base();
        let name = base.as_bytes();
        let kept = name
            .len()
            .min(MAX_STEM - (1 + digits.len() + mark.as_bytes().len()));
        let mut text = ShortText::new();
        text.push(&name[..kept]);
        text.push(b"$");
        text.push(digits);
        text.push(mark.as_bytes());
        text.push(b".");
        Name { text }
    }

    /// The name that stands for one that can't be read: `Lost`, the file's serial in octal, `.`.
    /// It has 6 to 16 characters; any serial of 32 bits has one.
    pub fn lost(serial: u32) -> Name
        ensures { result ≡ lost serial }
    {
        let mut text = ShortText::new();
        text.push(b"Lost");
        text.push_octal(serial);
        text.push(b".");
        Name { text }
    }
}

/// Names are equal where their bytes are, in the same case.
impl PartialEq for Name {
    ghost eq = { pointwise nat_eq };

    ghost laws = { partial_equiv_from_equiv nat_list_eq_equiv };

    fn eq(&self, other: &Name) -> bool {
        self.as_bytes() == other.as_bytes()
    }
}

impl Eq for Name {
    ghost laws = { nat_list_eq_equiv };
}

/// What stands before the final `.` of a text that is a name, once a `.` is added where it is
/// missing.
fn without_dot(text: &[u8]) -> &[u8]
    ensures with { with_dot text.now ≡ result.now ++ 46 ∷ [] }
    ensures without { result.now ≡ without_dot text.now }
{
    text.strip_suffix(b".".as_slice()).unwrap_or(text)
}

/// Whether all of these may stand in a name. It goes over all of them, and has no branch on one.
fn has_name_characters(text: &[u8]) -> bool
    ensures { result ≡ list_all is_name_character text.now }
{
    let mut all = true;
    for c in text {
        all &= is_name_character(*c);
    }
    all
}
