// The name that a nameless file gets.
ghost use Rattle.std.specs.Prelude.{◌≡◌, true, false, IfOk, OnOk};
ghost use Rattle.std.specs.FinMap.{FinMap, contains_key};
ghost use Rattle.std.specs.Option.{MatchOption};
ghost use Rattle.alto_words.specs.Fid.{fid_cmp};
ghost use Rattle.pack_model.specs.showing.Settling.{adopted, chosen};
ghost use Rattle.pack_model.specs.showing.View.{Home, Seen};
ghost use Rattle.kept_names.specs.Homes.{StandsFor};
ghost use Rattle.kept_names.specs.Passed.{IsPassed};

use crate::choosing::choose;
use crate::names::{Entry, Names, QualifiedName};
use crate::passed::Passed;
use alto_words::{Fid, Memory, Name};

/// Gives a file, whose leader has this name, a name in SysDir if it has none, and answers it: the leader's, or the first suffix of that
/// which isn't taken. None if the file has a name. Suffixes that are passed over aren't asked for again.
///
/// Memory: none was left for the entry, or for what is known of suffixes. The entries then stand for nothing any more.
pub fn adopt(
    names: &mut Names,
    passed: &mut Passed,
    fid: Fid,
    leader_name: Name,
) -> Result<Option<Name>, Memory>
    ensures names { (homes : FinMap fid_cmp Home) (x : Seen) → x.leader.name ≡ leader_name → StandsFor names.old homes → IsPassed homes passed.old → OnOk result (StandsFor names.new (adopted homes (fid, x))) }
    ensures passed { (homes : FinMap fid_cmp Home) (x : Seen) → x.leader.name ≡ leader_name → StandsFor names.old homes → IsPassed homes passed.old → OnOk result (IsPassed (adopted homes (fid, x)) passed.new) }
    ensures given { (homes : FinMap fid_cmp Home) → StandsFor names.old homes → IsPassed homes passed.old → IfOk result (λ given. MatchOption given (contains_key homes fid ≡ true) (λ name. (contains_key homes fid ≡ false) × (name ≡ chosen homes leader_name))) }
{
    if names.has(fid) {
        return Ok(None);
    }
    let name = choose(names, passed, leader_name)?;
    names.add(Entry {
        name: QualifiedName {
            directory: Fid::SYS_DIR,
            name,
        },
        fid,
    })?;
    Ok(Some(name))
}
