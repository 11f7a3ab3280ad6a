// Free blocks as words of a memory.
ghost use Rattle.std.specs.Prelude.{◌≡◌, ◌+◌, ◌-◌, ◌<◌, ◌≤◌, ◌++◌, ◌∷◌, [], drop, length, replicate, slice_index, take};
ghost use Rattle.laws_zone.specs.world_model.specs.Zones.{gap, left_before, live};
ghost use Rattle.laws_zone.specs.world_model.specs.ZoneWords.{block_words, zone_words};
ghost use Rattle.zones.specs.Gaps.{IsGapAt};

/// Makes the words from the address `from` up to `end` one free block. The tag is the number of words, `end - from`; the other words are 0.
pub fn put_gap(memory: &mut [u16], from: usize, end: usize)
    requires order { from < end }
    requires within { end ≤ length memory.old }
    requires most { end - from < 65536 }
    ensures { memory.new ≡ take from memory.old ++ block_words (gap (end - from)) ++ drop end memory.old }
{
    memory[from..end].fill(0);
    memory[from] = (end - from) as u16;
}

/// Makes the first `size` words of the free block at the address `at` a used block, whose usable words are 0. The rest of it stays free.
pub(crate) fn take_gap(memory: &mut [u16], at: usize, size: u16)
    requires gap { IsGapAt memory.old at size }
    ensures { memory.new ≡ take at memory.old ++ zone_words (live (replicate (size - 1) 0) ∷ left_before (slice_index memory.old at - size) []) ++ drop (at + slice_index memory.old at) memory.old }
{
    let left = memory[at] - size;
    memory[at] = size + 1;
    if left > 0 {
        memory[at + usize::from(size)] = left;
    }
}
