// Which file an operand of a command means.
ghost use Rattle.std.specs.Prelude.{◌≡◌};
ghost use Rattle.alto_words.specs.Wanted.{wanted_in, base_wanted};

use crate::name::Name;
use crate::version::mark_in;

/// The file that an operand means, in the directory where it is looked up.
#[derive(Clone, Copy, Debug, PartialEq, Eq)]
pub enum Wanted {
    /// The file of this name: the operand states a version, `!1` included.
    Exact { name: Name },
    /// The file of the greatest version of this bare name: the operand states none.
    Newest { base: Name },
}

impl Wanted {
    /// What a text means as an operand: with a stated version `!n` the name that it stands for, and
    /// without one the newest version of it. None if and only if it stands for no name.
    pub fn parse(text: &[u8]) -> Option<Wanted>
        ensures { result ≡ wanted_in text.now }
    {
        let name = Name::parse(text)?;
        Some(match mark_in(text) {
            None => Wanted::Newest { base: name },
            Some(_) => Wanted::Exact { name },
        })
    }

    /// The bare name of which a version is meant.
    pub fn base(&self) -> Name
        ensures { result ≡ base_wanted self.now }
    {
        match self {
            Wanted::Exact { name } => name.base(),
            Wanted::Newest { base } => *base,
        }
    }
}
