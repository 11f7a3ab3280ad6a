// What one sector command does with one sector.
ghost use Rattle.std.specs.Prelude.{◌≡◌, ◌+◌, ◌<◌, length};
ghost use Rattle.disk_records.specs.Packs.{with_part};
ghost use Rattle.disk_memory.specs.Adding.{writes_by, within, first_writes};
ghost use Rattle.disk_memory.specs.Storing.{record_words};

use disk_records::{Act, Plan, Sector};

/// Replaces one record of a sector.
pub fn replace_record(sector: &mut Sector, part: u8, words: &[u16])
    requires one { part < 3 }
    requires whole { length words.now ≡ record_words part }
    ensures { sector.new ≡ with_part part words.now sector.old }
{
    match part {
        0 => sector.header.copy_from_slice(words),
        1 => sector.label.copy_from_slice(words),
        _ => sector.value.copy_from_slice(words),
    }
}

/// The number of record writes that this act makes.
fn writes_by(act: Act) -> u8
    ensures { result ≡ writes_by act }
{
    match act {
        Act::Write => 1,
        Act::Read => 0,
        Act::Check => 0,
    }
}

/// The number of record writes of a command.
pub fn write_count(plan: Plan) -> u8
    ensures { result ≡ writes_by plan.header + (writes_by plan.label + writes_by plan.value) }
{
    writes_by(plan.header) + (writes_by(plan.label) + writes_by(plan.value))
}

/// An act where this many record writes may still be made.
fn within(act: Act, count: u8) -> Act
    ensures { result ≡ within act count }
{
    match act {
        Act::Write => { if count == 0 { Act::Read } else { Act::Write } }
        Act::Read => Act::Read,
        Act::Check => Act::Check,
    }
}

/// The command that makes the first `count` record writes of another one, and reads where that one makes the others.
pub fn first_writes(plan: Plan, count: u8) -> Plan
    ensures { result ≡ first_writes plan count }
{
    let after_header = count.saturating_sub(writes_by(plan.header));
    let after_label = after_header.saturating_sub(writes_by(plan.label));
    Plan {
        header: within(plan.header, count),
        label: within(plan.label, after_header),
        value: within(plan.value, after_label),
    }
}
