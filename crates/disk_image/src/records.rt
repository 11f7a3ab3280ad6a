// The records of one sector, read from a file and written to it where the file stands.
ghost use Rattle.std.specs.Prelude.{◌≡◌, ◌+◌, ◌*◌, ◌/◌, ◌≤◌, length, replicate, IfOk, OnOk, OnErr, IsTrue};
ghost use Rattle.std.specs.Io.KnownBytes.{Consumes, Appends};
ghost use Rattle.std.specs.Io.Seek.{MovesTo};
ghost use Rattle.disk_records.specs.Checks.{is_legal};
ghost use Rattle.disk_records.specs.Tapes.{capped};
ghost use Rattle.disk_image.specs.Holding.{TakesSector};
ghost use Rattle.disk_image.specs.Kept.{HasRoom, ReadsCylinder};
ghost use Rattle.disk_image.specs.Records.{read_length, front_length, front_bytes, writes_after, writes_after_all};

use crate::codec::{
    CYLINDER_BYTES, HEADER_BYTES, LABEL_BYTES, SECTOR_BYTES, VALUE_BYTES, read_sector,
};
use crate::kept::KeptSectors;
use crate::placed::{Failed, Placed};
use crate::spot::CYLINDER_SECTORS;
use disk_records::{Act, Plan, Sector};
use std::alloc::Global;
use std::io;
use std::io::{Read, Seek, SeekFrom, Write};
use std::os::unix::fs::FileExt;

/// How many of a record's bytes an act reads.
fn read_length(act: Act, bytes: usize) -> usize
    ensures { result ≡ read_length act bytes }
{
    match act {
        Act::Read => bytes,
        Act::Check => bytes,
        Act::Write => 0,
    }
}

/// The number of bytes of the records before the first Write, since a Write is followed by Writes alone.
fn front_length(plan: Plan) -> usize
    ensures length { result ≡ front_length plan }
    ensures most { result ≤ 532 }
{
    read_length(plan.header, HEADER_BYTES)
        + (read_length(plan.label, LABEL_BYTES) + read_length(plan.value, VALUE_BYTES))
}

/// Brings a file to the first byte of the sector with so many sectors of the file ahead of it, as at the calls below.
pub(crate) fn seek_to<F: Seek>(file: &mut F, ahead: u16) -> io::Result<()>
    ensures { MovesTo (F.stream_position file.old) (F.stream_position file.new) (ahead * 532) result }
{
    file.seek(SeekFrom::Start(ahead as u64 * SECTOR_BYTES as u64))?;
    Ok(())
}

/// Brings a file to the first byte of a sector's cylinder.
pub(crate) fn seek_to_cylinder<F: Seek>(file: &mut F, ahead: u16) -> io::Result<()>
    ensures { MovesTo (F.stream_position file.old) (F.stream_position file.new) (ahead / 24 * 12768) result }
{
    seek_to(file, ahead / CYLINDER_SECTORS * CYLINDER_SECTORS)
}

/// Reads the records before the first Write, by one read call, or by none where there are none. The other records are zeros.
pub(crate) fn read_front<F: Read>(file: &mut F, plan: Plan) -> io::Result<Sector>
    requires { IsTrue (is_legal plan) }
    ensures { IfOk result (λ sector. Consumes (F.remaining file.old) (F.remaining file.new) (front_bytes plan sector)) }
{
    let mut bytes = [0; SECTOR_BYTES];
    file.read_exact(&mut bytes[..front_length(plan)])?;
    Ok(read_sector(&bytes))
}

/// Memory that the bytes of a cylinder are read into, which is taken once, as clearing it for each would cost as much as reading them.
/// Where it is refused it has no byte.
pub(crate) fn memory_of_cylinder(alloc: Global) -> Vec<u8> {
    match vec![in alloc; 0; CYLINDER_BYTES as usize] {
        Ok(memory) => memory,
        Err(_) => Vec::new(alloc),
    }
}

/// Reads a cylinder of the pack, on whose first byte the file stands, by one read call into memory that is lent, and keeps its sectors.
/// Where that fails, or the file ends within the cylinder, all that is kept stays as it was.
pub(crate) fn read_cylinder<F: Read>(
    file: &mut F,
    cylinder: u16,
    kept: &mut KeptSectors,
    memory: &mut [u8],
) -> io::Result<()>
    requires room { HasRoom kept.old cylinder }
    requires memory { length memory.old ≡ 12768 }
    ensures ok { OnOk result (ReadsCylinder cylinder (F.remaining file.old) (F.remaining file.new) kept.old kept.new) }
    ensures err { OnErr result (kept.new ≡ kept.old) }
{
    file.read_exact(memory)?;
    kept.keep_cylinder(cylinder, memory);
    Ok(())
}

/// The count of record writes after an act.
fn writes_after(act: Act, writes: u64) -> u64
    ensures { result ≡ writes_after act writes }
{
    match act {
        Act::Read => writes,
        Act::Check => writes,
        Act::Write => writes.saturating_add(1),
    }
}

/// Writes a sector whole, where the file stands, and counts the records whose act is Write. The others have to be as they stand in the
/// file. The bytes may be held back (placed.rt). After a fault none is counted.
pub(crate) fn write_back<F: FileExt + Seek>(
    file: &mut Placed<F>,
    plan: Plan,
    sector: &Sector,
    writes: &mut u64,
) -> Result<(), Failed>
    ensures bytes { OnOk result (TakesSector file.old.at sector.now file.old.held file.new.held) }
    ensures place { OnOk result (file.new.at ≡ capped (file.old.at + 532)) }
    ensures count { OnOk result (writes.new ≡ writes_after_all plan writes.old) }
    ensures err { OnErr result (writes.new ≡ writes.old) }
    ensures rise { writes.old ≤ writes.new }
{
    file.put(sector)?;
    *writes = writes_after(
        plan.value,
        writes_after(plan.label, writes_after(plan.header, *writes)),
    );
    Ok(())
}

/// Fills the new file of a drive of so many cylinders with zeros, one write call a cylinder.
pub(crate) fn fill<F: Write>(file: &mut F, cylinders: u16) -> io::Result<()>
    ensures { OnOk result (Appends (F.contents file.old) (F.contents file.new) (replicate (cylinders * 12768) 0)) }
{
    let zeros = [0; CYLINDER_BYTES as usize];
    for _ in 0..cylinders {
        file.write_all(&zeros)?;
    }
    Ok(())
}
