// Which entries are kept.
ghost use Rattle.std.specs.Prelude.{◌≡◌, Bool, IfOk, OnOk};
ghost use Rattle.std.specs.FinMap.{FinMap};
ghost use Rattle.alto_words.specs.declared.fid.Fid.{Fid as FullName};
ghost use Rattle.alto_words.specs.Fid.{fid_cmp};
ghost use Rattle.pack_model.specs.showing.View.{Home};
ghost use Rattle.kept_names.specs.Homes.{StandsFor, naming_at, may_show, is_let, considered};

use crate::names::{Entry, Names};
use crate::system::{is_system, is_system_name};
use alto_words::{Fid, Memory};

/// Whether an entry of a file that is shown may stand by itself, if its file lives as `lives` says: directories stand in SysDir, and the
/// names of the system files there are theirs.
fn may_show(lives: bool, entry: &Entry) -> bool
    ensures { (alive : FullName → Bool) → lives ≡ alive entry.now.fid → result ≡ may_show alive (naming_at entry.now) }
{
    if is_system(entry.fid) || !lives {
        return false;
    }
    if entry.name.directory == Fid::SYS_DIR {
        !is_system_name(&entry.name.name)
    } else {
        !entry.fid.is_directory()
    }
}

/// Keeps an entry of a file that is shown, if it may stand and neither its file has a name yet nor its name is taken in its directory.
/// `lives` says whether its file lives. Answers whether the entry is kept. An entry of a system file never is.
///
/// Memory: none was left for the entry. The entries then stand for nothing any more.
pub fn consider(names: &mut Names, lives: bool, entry: Entry) -> Result<bool, Memory>
    ensures names { (alive : FullName → Bool) (homes : FinMap fid_cmp Home) → lives ≡ alive entry.fid → StandsFor names.old homes → OnOk result (StandsFor names.new (considered alive homes (naming_at entry))) }
    ensures kept { (alive : FullName → Bool) (homes : FinMap fid_cmp Home) → lives ≡ alive entry.fid → StandsFor names.old homes → IfOk result (λ kept. kept ≡ is_let alive homes (naming_at entry)) }
{
    if !may_show(lives, &entry) || names.has(entry.fid) || names.is_taken(&entry.name) {
        return Ok(false);
    }
    names.add(entry)?;
    Ok(true)
}
