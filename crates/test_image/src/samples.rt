// Sectors and bytes that several tests have.
use disk_records::Sector;
use std::alloc::{AllocError, Global};

/// A sector whose records hold one word each over and over.
pub fn filled(header: u16, label: u16, value: u16) -> Sector {
    Sector {
        header: [header; 2],
        label: [label; 8],
        value: [value; 256],
    }
}

/// So many bytes, each byte value among them.
pub fn bytes_from(alloc: Global, first: u32, count: u32) -> Result<Vec<u8>, AllocError> {
    let mut bytes = Vec::new(alloc);
    for at in 0..count {
        bytes.push(((at as u64 + first as u64) * 7 / 3 % 256) as u8)?;
    }
    Ok(bytes)
}
