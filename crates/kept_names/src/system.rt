// The two system files, and their names.
ghost use Rattle.std.specs.Prelude.{◌≡◌, ◌||◌};
ghost use Rattle.alto_words.specs.Fid.{is_system};
ghost use Rattle.alto_words.specs.Names.{is_same_name};
ghost use Rattle.pack_model.specs.reading.Namings.{sys_dir_name, descriptor_name};

use alto_words::{Fid, Name};

/// Whether this is one of the two system files, which aren't shown.
pub fn is_system(fid: Fid) -> bool
    ensures { result ≡ is_system fid }
{
    fid == Fid::SYS_DIR || fid == Fid::DISK_DESCRIPTOR
}

/// Whether this is the name of a system file.
pub fn is_system_name(name: &Name) -> bool
    ensures { result ≡ (is_same_name name.now sys_dir_name || is_same_name name.now descriptor_name) }
{
    is_text(name, b"SysDir.") || is_text(name, b"DiskDescriptor.")
}

/// Whether a name is this text, in any case of its letters.
pub fn is_text(name: &Name, text: &[u8]) -> bool
    ensures { result ≡ is_same_name name.now text.now }
{
    name.as_bytes().eq_ignore_ascii_case(text)
}
