// The first name that isn't taken: a name itself, and then its suffixes.
ghost use Rattle.std.specs.Prelude.{◌≡◌, ◌≤◌, ◌<◌, true, IfSome, IfOk, OnOk};
ghost use Rattle.std.specs.FinMap.{FinMap};
ghost use Rattle.alto_words.specs.Fid.{fid_cmp};
ghost use Rattle.alto_words.specs.Names.{suffixed};
ghost use Rattle.pack_model.specs.showing.Settling.{is_taken, chosen};
ghost use Rattle.pack_model.specs.showing.View.{Home};
ghost use Rattle.kept_names.specs.Homes.{StandsFor};
ghost use Rattle.kept_names.specs.Passed.{IsPassed, IsFirstFree};

use crate::groups::{GROUPS, Group, MOST_SUFFIXES};
use crate::names::{Names, QualifiedName};
use crate::passed::Passed;
use crate::system::is_system_name;
use alto_words::{Fid, Memory, Name};

/// Whether a name in SysDir is given away, or is that of a system file.
fn is_taken(names: &Names, name: Name) -> bool
    ensures { (homes : FinMap fid_cmp Home) → StandsFor names.now homes → result ≡ is_taken homes name }
{
    is_system_name(&name)
        || names.is_taken(&QualifiedName {
            directory: Fid::SYS_DIR,
            name,
        })
}

/// The first suffix of a name in a group that isn't taken, past those that are known to be.
fn next_in_group(names: &Names, passed: &Passed, name: Name, group: Group) -> Option<u32>
    ensures within { IfSome result (λ k. (group.first ≤ k) × (k < group.end)) }
    ensures free { (homes : FinMap fid_cmp Home) → StandsFor names.now homes → IsPassed homes passed.now → IsFirstFree homes name group result }
{
    for count in passed.count(name, group.first)..group.end - group.first {
        let k = group.first + count;
        if !is_taken(names, name.suffixed(k)) {
            return Some(k);
        }
    }
    None
}

/// The first suffix of a name in a group that isn't taken. Those before it aren't asked for again.
fn free_in_group(
    names: &Names,
    passed: &mut Passed,
    name: Name,
    group: Group,
) -> Result<Option<u32>, Memory>
    ensures within { IfOk result (λ free. IfSome free (λ k. (group.first ≤ k) × (k < group.end))) }
    ensures free { (homes : FinMap fid_cmp Home) → StandsFor names.now homes → IsPassed homes passed.old → IfOk result (λ free. IsFirstFree homes name group free) }
    ensures passed { (homes : FinMap fid_cmp Home) → StandsFor names.now homes → IsPassed homes passed.old → OnOk result (IsPassed homes passed.new) }
{
    let free = next_in_group(names, passed, name, group);
    passed.keep(name, group.first, free.unwrap_or(group.end) - group.first)?;
    Ok(free)
}

/// The first suffix of a name that isn't taken, where the name itself is. Those before it aren't asked for again.
fn free_suffix(names: &Names, passed: &mut Passed, name: Name) -> Result<u32, Memory>
    ensures least { IfOk result (λ k. 1 ≤ k) }
    ensures most { IfOk result (λ k. k ≤ 65535) }
    ensures chosen { (homes : FinMap fid_cmp Home) → StandsFor names.now homes → IsPassed homes passed.old → is_taken homes name ≡ true → IfOk result (λ k. suffixed name k ≡ chosen homes name) }
    ensures passed { (homes : FinMap fid_cmp Home) → StandsFor names.now homes → IsPassed homes passed.old → OnOk result (IsPassed homes passed.new) }
{
    for &group in &GROUPS {
        if let Some(k) = free_in_group(names, passed, name, group)? {
            return Ok(k);
        }
    }
    Ok(MOST_SUFFIXES)
}

/// The name itself, or where it is taken its first suffix that isn't.
pub(crate) fn choose(names: &Names, passed: &mut Passed, name: Name) -> Result<Name, Memory>
    ensures chosen { (homes : FinMap fid_cmp Home) → StandsFor names.now homes → IsPassed homes passed.old → IfOk result (λ given. given ≡ chosen homes name) }
    ensures passed { (homes : FinMap fid_cmp Home) → StandsFor names.now homes → IsPassed homes passed.old → OnOk result (IsPassed homes passed.new) }
{
    if !is_taken(names, name) {
        return Ok(name);
    }
    let k = free_suffix(names, passed, name)?;
    Ok(name.suffixed(k))
}
