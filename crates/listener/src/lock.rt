//! A lock file, which one process holds at a time.

use std::fs::{self, File, Metadata, OpenOptions, Permissions};
use std::io::{self, Error, ErrorKind};
use std::os::unix::fs::{MetadataExt, OpenOptionsExt, PermissionsExt};
use std::rt::Files;

/// Who may open it: the file's owner.
const OWNER_ONLY: u32 = 0o600;

/// A lock file that is held. It can't be dropped, only released. The system releases it when the process ends.
pub(crate) struct FileLock {
    path: String,
    file: File,
}

/// The file of this path, made if there is none.
fn open<R: Files<File = File>>(rt: &R, path: &str) -> io::Result<File> {
    let made = OpenOptions::new()
        .write(true)
        .create_new(true)
        .mode(OWNER_ONLY)
        .open(rt, path);
    match made {
        Err(error) if error.kind() == ErrorKind::AlreadyExists => fs::open(rt, path),
        Err(error) => Err(error),
        Ok(file) => {
            // the umask may have taken its owner's rights too
            fs::set_permissions(rt, path, Permissions::from_mode(OWNER_ONLY))?;
            Ok(file)
        }
    }
}

/// Whether both are of one file.
fn is_same(first: &Metadata, second: &Metadata) -> bool {
    first.dev() == second.dev() && first.ino() == second.ino()
}

/// A lock on the file of this path. Another process may have removed it meanwhile: then the lock is worth nothing.
fn lock<R: Files<File = File>>(rt: &R, path: &str) -> io::Result<File> {
    let file = open(rt, path)?;
    file.try_lock()?;
    if is_same(&file.metadata()?, &fs::symlink_metadata(rt, path)?) {
        Ok(file)
    } else {
        Err(Error::from(ErrorKind::AddrInUse))
    }
}

impl FileLock {
    /// Takes the lock of this path. One that another process holds is an error.
    pub fn take<R: Files<File = File>>(rt: &R, path: String) -> io::Result<FileLock> {
        let file = lock(rt, path.as_str())?;
        Ok(FileLock { path, file })
    }

    /// Removes the file, and lets it go.
    pub fn release<R: Files>(self, rt: &R) {
        let FileLock { path, file } = self;
        let _ = fs::remove_file(rt, path.as_str());
        drop(file);
    }
}
