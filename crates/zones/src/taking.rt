// A block is taken.
ghost use Rattle.std.specs.Prelude.{◌≡◌, ◌≤◌, IfErr, IfOk, OnErr, OnOk};
ghost use Rattle.laws_zone.specs.Filling.{IsTop};
ghost use Rattle.laws_zone.specs.world_model.specs.Zones.{size_for};
ghost use Rattle.laws_zone.specs.world_model.specs.ZoneWords.{IsMemory, zone_in};
ghost use Rattle.zones.specs.Keeping.{KeepsWords};
ghost use Rattle.zones.specs.Taking.{FindsGap, IsNoRoom, NoRoomFor, Takes};

use crate::ZoneError;
use crate::gaps::take_gap;
use crate::tags::{ZONE_START, block_size, gap_words, has_room};

/// The words that a block of `n` usable words takes, with its tag: an even number, at most 65,536.
fn size_for(n: u16) -> u32
    ensures { result ≡ size_for n }
{
    (u32::from(n) + 2) / 2 * 2
}

/// The address of the lowest free block of at least `size` words, or else the most usable words that a request could get.
fn find_gap(memory: &[u16], top: usize, size: u32) -> Result<usize, u16>
    requires top { IsTop top }
    requires memory { IsMemory top memory.now }
    ensures found { IfOk result (FindsGap top memory.now size) }
    ensures none { IfErr result (NoRoomFor top size memory.now) }
{
    let mut largest = 0;
    let mut at = usize::from(ZONE_START);
    while at < top {
        let tag = memory[at];
        if has_room(tag, size) {
            return Ok(at);
        }
        largest = gap_words(tag).max(largest);
        at += usize::from(block_size(tag));
    }
    Err(largest)
}

/// Takes a block of `n` usable words, 1 to 65,535, from the lowest free block that has room for them and a tag, and answers the address of
/// the first of them. They are 0. The rest of that free block stays free. `top` is the end of the zone, even and above 1,024; the memory is
/// one that `check_zone` accepts.
///
/// NoRoom: no free block has room for so many; `largest` is the most that one has. The memory is as before.
pub fn allocate(memory: &mut [u16], top: u16, n: u16) -> Result<u16, ZoneError>
    requires top { IsTop top }
    requires memory { IsMemory top memory.old }
    requires some { 1 ≤ n }
    ensures taken { IfOk result (Takes top n memory.old memory.new) }
    ensures no_room { IfErr result (IsNoRoom top n memory.old) }
    ensures left { OnErr result (memory.new ≡ memory.old) }
    ensures others { OnOk result (KeepsWords (zone_in top memory.old) (zone_in top memory.new)) }
{
    let top = usize::from(top);
    let size = size_for(n);
    match find_gap(memory, top, size) {
        Ok(at) => {
            take_gap(memory, at, size as u16);
            Ok(at as u16 + 1)
        }
        Err(largest) => Err(ZoneError::NoRoom { largest }),
    }
}
