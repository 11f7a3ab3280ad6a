// Refusals by a file's full name, and by the streams that are open.
ghost use Rattle.alto_words.specs.Fid.{disk_descriptor, is_directory, is_fid, is_system};
ghost use Rattle.exec_session.specs.Meant.{kept};
ghost use Rattle.exec_session.specs.Stops.{refused_if};
ghost use Rattle.session_model.specs.Keeping.{world_of};
ghost use Rattle.session_model.specs.Refusals.{is_any_open, is_streamed};
ghost use Rattle.std.specs.Prelude.{Some, not, ◌≡◌};

use crate::session::Session;
use crate::stop::{Stop, refused};
use alto_words::Fid;
use exec_words::Refusal;

/// IsADirectory: where a file is wanted, this is a directory.
pub fn refuse_directory(fid: Fid) -> Result<(), Stop>
    ensures { result ≡ refused_if (is_directory fid) Refusal.IsADirectory }
{
    if fid.is_directory() {
        return refused(Refusal::IsADirectory);
    }
    Ok(())
}

/// NotADirectory: where a directory is wanted, this isn't one.
pub fn require_directory(fid: Fid) -> Result<(), Stop>
    ensures { result ≡ refused_if (not (is_directory fid)) Refusal.NotADirectory }
{
    if !fid.is_directory() {
        return refused(Refusal::NotADirectory);
    }
    Ok(())
}

/// SystemFile: the file is DiskDescriptor.
pub fn refuse_descriptor(fid: Fid) -> Result<(), Stop>
    ensures { result ≡ refused_if (is_fid fid disk_descriptor) Refusal.SystemFile }
{
    if fid == Fid::DISK_DESCRIPTOR {
        return refused(Refusal::SystemFile);
    }
    Ok(())
}

/// SystemFile: the file is SysDir or DiskDescriptor.
pub fn refuse_system(fid: Fid) -> Result<(), Stop>
    ensures { result ≡ refused_if (is_system fid) Refusal.SystemFile }
{
    if fid == Fid::SYS_DIR {
        return refused(Refusal::SystemFile);
    }
    refuse_descriptor(fid)
}

/// StreamsOpen: an open stream has the file.
pub fn refuse_streamed(session: &Session, fid: Fid) -> Result<(), Stop>
    ensures { result ≡ refused_if (is_streamed (world_of (kept session.now)) (Some fid)) Refusal.StreamsOpen }
{
    if session.streams.slots.has_file(fid) {
        return refused(Refusal::StreamsOpen);
    }
    Ok(())
}

/// StreamsOpen: any stream is open.
pub fn refuse_open_streams(session: &Session) -> Result<(), Stop>
    ensures { result ≡ refused_if (is_any_open (world_of (kept session.now))) Refusal.StreamsOpen }
{
    if session.streams.slots.has_any() {
        return refused(Refusal::StreamsOpen);
    }
    Ok(())
}
