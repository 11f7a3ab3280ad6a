// The lock that a process holds on a pack file, so that no other one reads or writes the pack meanwhile.
//
// It stands on the open file and goes with it: where the file is dropped, or its process ends in any way, a kill among them, it is given back.
// It hinders nobody who takes none.
ghost use Rattle.std.specs.Prelude.{◌≡◌, ◌⊎◌, IfErr, OnOk};
ghost use Rattle.disk_image.specs.Locks.{HasLock};

use crate::error::ReachError;
use std::fs::{File, TryLockError};

/// What a machine over pack files is to do with them.
#[derive(Clone, Copy, Debug, PartialEq, Eq)]
pub(crate) enum Purpose {
    /// Nothing is written: the files are opened for reading alone, and others may read them meanwhile.
    Reading,
    /// They may be written: no other process has them meanwhile.
    Writing,
}

/// An open file on which a lock is taken without waiting. It stands beside `Files`, as `FileExt` does, so that a stand-in of a test can
/// refuse one.
pub trait Lockable {
    /// That the file got the lock of `try_lock`, for contracts alone. Of a real file nothing is known of it, so that this always holds; of a
    /// type that isn't known it is had from that call, and from nowhere else.
    ghost alone: { Self → Type 0 };

    /// That the file got the lock of `try_lock_shared`, in the same way.
    ghost shared: { Self → Type 0 };

    /// Takes the lock that no other open file has beside one of its own. WouldBlock: another has one.
    fn try_lock(&self) -> Result<(), TryLockError>
        ensures { OnOk result (Self.alone self.now) };

    /// Takes the lock that others may have too. WouldBlock: another has that of `try_lock`.
    fn try_lock_shared(&self) -> Result<(), TryLockError>
        ensures { OnOk result (Self.shared self.now) };
}

impl Lockable for File {
    ghost alone = { λ file. Unit {0} };

    ghost shared = { λ file. Unit {0} };

    fn try_lock(&self) -> Result<(), TryLockError> {
        File::try_lock(self)
    }

    fn try_lock_shared(&self) -> Result<(), TryLockError> {
        File::try_lock_shared(self)
    }
}

/// Takes the lock that a purpose asks for. InUse: another process has one that rules it out. NoFile: none can be taken.
pub(crate) fn take_lock<F: Lockable>(file: &F, purpose: Purpose) -> Result<(), ReachError>
    ensures ok { OnOk result (HasLock F.alone F.shared purpose file.now) }
    ensures err { IfErr result (λ error. (error ≡ ReachError.NoFile) ⊎ (error ≡ ReachError.InUse)) }
{
    let answer = match purpose {
        Purpose::Reading => file.try_lock_shared(),
        Purpose::Writing => file.try_lock(),
    };
    match answer {
        Ok(()) => Ok(()),
        Err(TryLockError::WouldBlock) => Err(ReachError::InUse),
        Err(TryLockError::Error(_)) => Err(ReachError::NoFile),
    }
}
