//! Listening at a socket file.
ghost use Rattle.std.specs.Prelude.{◌≡◌, ◌⊎◌, true, false, IsErrAnd};
ghost use Rattle.std.specs.IoError.{error_kind};
ghost use Rattle.listener.specs.Filing.{IsDeserted};

use crate::door::Door;
use crate::lock::FileLock;
use std::alloc::Global;
use std::fs::{self, DirBuilder, File, Permissions};
use std::io::{self, Error, ErrorKind};
use std::net::Net;
use std::os::unix::fs::{DirBuilderExt, FileTypeExt, PermissionsExt};
use std::os::unix::net::{UnixListener, UnixStream};
use std::rt::Files;

/// Who may connect: the file's owner.
const OWNER_ONLY: u32 = 0o600;

/// Who may enter the folder in which it is made.
const OWNER_FOLDER: u32 = 0o700;

/// A socket file that is listened at, and the lock beside it. It can't be dropped, only removed.
pub struct SocketFile<'a> {
    path: &'a str,
    lock: FileLock,
}

impl<'a> SocketFile<'a> {
    /// Removes the file, and lets others listen at its path.
    pub fn remove<R: Files>(self, rt: &R) {
        let SocketFile { path, lock } = self;
        let _ = fs::remove_file(rt, path);
        lock.release(rt);
    }
}

/// Whether nobody listens at a file, of which is known whether it is a socket, and what came of connecting to it.
fn is_deserted(is_socket: bool, connected: &io::Result<UnixStream>) -> bool
    ensures deserted { result ≡ true → IsDeserted is_socket connected.now }
    ensures other { result ≡ false → ¬ (IsDeserted is_socket connected.now) }
{
    match connected {
        Ok(_) => false,
        Err(error) => is_socket && error.kind() == ErrorKind::ConnectionRefused,
    }
}

/// Removes a socket file at which nobody listens. Any other file stays, and is an error.
fn remove_deserted<R: Net + Files>(rt: &R, path: &str) -> io::Result<()> {
    let is_socket = fs::symlink_metadata(rt, path)?.file_type().is_socket();
    if is_deserted(is_socket, &UnixStream::connect(rt, path)) {
        fs::remove_file(rt, path)
    } else {
        Err(Error::from(ErrorKind::AddrInUse))
    }
}

/// Sets the mode of a socket file, and lets it be found at this path too.
fn publish<R: Net + Files>(rt: &R, inner: &str, path: &str) -> io::Result<()> {
    fs::set_permissions(rt, inner, Permissions::from_mode(OWNER_ONLY))?;
    // unlike a rename, a link leaves a file that is there
    match fs::hard_link(rt, inner, path) {
        Err(error) if error.kind() == ErrorKind::AlreadyExists => {
            remove_deserted(rt, path)?;
            fs::hard_link(rt, inner, path)
        }
        linked => linked,
    }
}

/// A listener at this path, made at another one, in a folder that is there.
fn bind_within<R: Net + Files>(
    rt: &R,
    folder: &str,
    inner: &str,
    path: &str,
) -> io::Result<UnixListener> {
    // the umask may have taken its owner's rights too
    fs::set_permissions(rt, folder, Permissions::from_mode(OWNER_FOLDER))?;
    let listener = UnixListener::bind(rt, inner)?;
    publish(rt, inner, path)?;
    Ok(listener)
}

/// A listener at this path, made in a folder of its own. What a process left there that was killed goes first.
fn bind_in_folder<R: Net + Files>(rt: &R, alloc: Global, path: &str) -> io::Result<UnixListener> {
    let folder = format!(in alloc; "{path}.d")?;
    let inner = format!(in alloc; "{path}.d/s")?;
    let _ = fs::remove_file(rt, inner.as_str());
    let _ = fs::remove_dir(rt, folder.as_str());
    DirBuilder::new()
        .mode(OWNER_FOLDER)
        .create(rt, folder.as_str())?;
    let bound = bind_within(rt, folder.as_str(), inner.as_str(), path);
    let _ = fs::remove_file(rt, inner.as_str());
    let _ = fs::remove_dir(rt, folder.as_str());
    bound
}

/// A listener at this path. Only the file's owner can connect, from the first moment on and whatever the process' umask: the file is
/// made in a new folder that only its owner may enter. A socket file that is there is removed if nobody listens at it; any other file
/// is an error. While the lock beside the path is held, nobody else can listen there by this call.
pub fn bind_file<'a, R: Net + Files<File = File>>(
    rt: &R,
    alloc: Global,
    path: &'a str,
) -> io::Result<(Door, SocketFile<'a>)> {
    let lock = FileLock::take(rt, format!(in alloc; "{path}.lock")?)?;
    match bind_in_folder(rt, alloc, path) {
        Ok(listener) => Ok((Door::File(listener), SocketFile { path, lock })),
        Err(error) => {
            lock.release(rt);
            Err(error)
        }
    }
}
