//! A file beside the one that it is to replace. One run at a time has it.

use std::fs::{File, Metadata, OpenOptions, Permissions, TryLockError};
use std::io::ErrorKind;
use std::os::fd::{AsRawFd, RawFd};
use std::os::unix::fs::{MetadataExt, OpenOptionsExt, PermissionsExt, fchown};
use std::path::Path;
use std::{fs, io};

/// How often the file is made again, where another run comes between.
const MOST_TRIES: u32 = 100;

/// The mode of a file that replaces none. The system takes the umask from it.
const NEW_MODE: u32 = 0o644;

/// The mode of a file that replaces another, until it gets that one's.
const PRIVATE_MODE: u32 = 0o600;

/// The bits of a mode that are kept.
const KEPT_BITS: u32 = 0o777;

/// The handle of standard error. Those of the other two streams come before it.
const LAST_STREAM: RawFd = 2;

/// Takes the lock on a file, which its last handle lets go of. Where the file system knows no locks it goes on without.
fn lock(file: &File) -> io::Result<()> {
    match file.try_lock() {
        Ok(()) => Ok(()),
        Err(TryLockError::Error(error)) if error.kind() == ErrorKind::Unsupported => Ok(()),
        Err(error) => Err(io::Error::from(error)),
    }
}

/// The file by a handle that is no standard stream's. Where one was closed, what is meant for it must not land in the file.
fn beside_streams(file: File) -> io::Result<File> {
    if file.as_raw_fd() > LAST_STREAM {
        return Ok(file);
    }
    file.try_clone()
}

/// Whether both are of one file.
fn is_same(one: &Metadata, other: &Metadata) -> bool {
    one.dev() == other.dev() && one.ino() == other.ino()
}

/// Whether the path is that of the open file, links not followed.
fn is_at(rt: HostRuntime, path: &str, file: &File) -> bool {
    match (fs::symlink_metadata(&rt, path), file.metadata()) {
        (Ok(named), Ok(opened)) => is_same(&named, &opened),
        _ => false,
    }
}

/// Looks up what may be removed: a file with no other name. A link, or what is no regular file, is refused.
fn look_up_left(rt: HostRuntime, path: &str) -> io::Result<Metadata> {
    let found = fs::symlink_metadata(&rt, path)?;
    if !found.is_file() || found.nlink() != 1 {
        return Err(io::Error::from(ErrorKind::AlreadyExists));
    }
    Ok(found)
}

/// Removes the file that an earlier run left, unless another run holds it. It is opened to be read too, since to open a
/// pipe that has just taken its place only to write would wait for a reader.
fn remove_left(rt: HostRuntime, path: &str) -> io::Result<()> {
    look_up_left(rt, path)?;
    let file = OpenOptions::new().read(true).write(true).open(&rt, path)?;
    lock(&file)?;
    if is_same(&look_up_left(rt, path)?, &file.metadata()?) {
        fs::remove_file(&rt, path)?;
    }
    Ok(())
}

/// Makes room for a new file. What is gone by now needs no room.
fn make_room(rt: HostRuntime, path: &str) -> io::Result<()> {
    match remove_left(rt, path) {
        Err(error) if error.kind() != ErrorKind::NotFound => Err(error),
        _ => Ok(()),
    }
}

/// The regular file of this name, links not followed.
fn replaced(rt: HostRuntime, name: &str) -> io::Result<Option<Metadata>> {
    match fs::symlink_metadata(&rt, name) {
        Ok(found) if found.is_file() => Ok(Some(found)),
        Ok(_) => Ok(None),
        Err(error) if error.kind() == ErrorKind::NotFound => Ok(None),
        Err(error) => Err(error),
    }
}

/// Gives the file the owner and the group of another where this process may, and its mode always.
fn set_access(file: &File, as_of: &Metadata) -> io::Result<()> {
    let _ = fchown(file, None, Some(as_of.gid()));
    let _ = fchown(file, Some(as_of.uid()), None);
    let mode = as_of.mode() & KEPT_BITS;
    // A file system that has one mode for all files may refuse to set it.
    if file.metadata()?.mode() & KEPT_BITS == mode {
        return Ok(());
    }
    file.set_permissions(Permissions::from_mode(mode))
}

/// Asks the system to store the directory of this name. Not every file system can.
fn sync_directory(rt: HostRuntime, name: &str) {
    let directory = match Path::new(name).parent() {
        Some(parent) if !parent.as_str().is_empty() => parent.as_str(),
        _ => ".",
    };
    if let Ok(directory) = File::open(&rt, directory) {
        let _ = directory.sync_all();
    }
}

/// A file that this run has made and locked.
#[derive(Drop)]
pub(crate) struct Aside {
    path: String,
    file: File,
}

impl Aside {
    /// Makes the file at this path, which is to replace the one of this name. What an earlier run left there is removed.
    /// Nothing is written to a file that was there, and what another run holds stays as it is.
    pub(crate) fn make(rt: HostRuntime, path: String, name: &str) -> io::Result<Aside> {
        let mode = if replaced(rt, name)?.is_some() {
            PRIVATE_MODE
        } else {
            NEW_MODE
        };
        // Each write goes to the end, so a file that was emptied is written from its start.
        let mut options = OpenOptions::new();
        options.append(true).create_new(true).mode(mode);
        for _ in 0..MOST_TRIES {
            match options.open(&rt, &path) {
                Ok(file) => {
                    let file = beside_streams(file)?;
                    lock(&file)?;
                    if is_at(rt, &path, &file) {
                        return Ok(Aside { path, file });
                    }
                }
                Err(error) if error.kind() == ErrorKind::AlreadyExists => make_room(rt, &path)?,
                Err(error) => return Err(error),
            }
        }
        Err(io::Error::from(ErrorKind::WouldBlock))
    }

    /// Whether the path is of this file still.
    pub(crate) fn is_there(&self, rt: HostRuntime) -> bool {
        is_at(rt, &self.path, &self.file)
    }

    /// Another handle of the file, and of its lock.
    pub(crate) fn handle(&self) -> io::Result<File> {
        self.file.try_clone()
    }

    /// Puts the file in the place of the one of this name, which gives it its owner and mode. What was written is on the
    /// disk before, so a power cut leaves the old file or the whole new one.
    pub(crate) fn replace(&self, rt: HostRuntime, name: &str) -> io::Result<()> {
        self.file.sync_all()?;
        if let Some(old) = replaced(rt, name)? {
            set_access(&self.file, &old)?;
        }
        if !self.is_there(rt) {
            return Err(io::Error::from(ErrorKind::NotFound));
        }
        fs::rename(&rt, &self.path, name)?;
        sync_directory(rt, name);
        Ok(())
    }

    /// Removes the file, where the path is its own still, and lets go of the lock.
    pub(crate) fn remove(self, rt: HostRuntime) {
        let Aside { path, file } = self;
        if is_at(rt, &path, &file) {
            let _ = fs::remove_file(&rt, &path);
        }
    }
}
