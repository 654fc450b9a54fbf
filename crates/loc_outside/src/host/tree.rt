//! The host's directories.
ghost use Rattle.std.specs.Prelude.{◌≡◌, None, ⊤, true, false, min, IfOk, IfSome, IsTrue};
ghost use Rattle.std.proofs.Common.{refl};
ghost use Rattle.path_order.specs.Names.{is_name};
ghost use Rattle.loc_outside.specs.Causes.{last_count, stays_below};

use crate::host::files::fault;
use crate::{Failed, Listing, Times, Tree};
use path_order::{Kind, PathBuf, Stamp};
use std::fs::{DirEntry, Metadata, ReadDir};
use std::io::ErrorKind;
use std::marker::Model;
use std::os::unix::fs::MetadataExt;
use std::time::UNIX_EPOCH;
use std::{fs, io, mem};

/// The most bytes of a directory's path: the system takes 4,095, and a slash is put behind it to list the directory.
const MOST_BYTES: usize = 4094;

/// Whether a fault says that nothing can be reached by the path: it is gone, the way there is refused,
/// or a mount on the way has lost its file system.
pub(crate) fn is_out_of_reach(kind: ErrorKind) -> bool {
    matches!(
        kind,
        ErrorKind::NotFound
            | ErrorKind::NotADirectory
            | ErrorKind::PermissionDenied
            | ErrorKind::InvalidFilename
            | ErrorKind::InvalidInput
            | ErrorKind::FilesystemLoop
            | ErrorKind::NotConnected
            | ErrorKind::StaleNetworkFileHandle
            | ErrorKind::TimedOut
            | ErrorKind::HostUnreachable
    )
}

/// The path as a text, where the host can reach a directory by it.
pub(crate) fn reachable(dir: &[u8]) -> Option<&str> {
    if dir.len() > MOST_BYTES {
        return None;
    }
    str::from_utf8(dir).ok()
}

/// The moment of the last change of content. A moment before 1970 is zero.
fn modified(metadata: &Metadata) -> Stamp {
    let Ok(time) = metadata.modified() else {
        return Stamp::zero();
    };
    match time.duration_since(UNIX_EPOCH) {
        Ok(since) => Stamp::new(since.as_secs(), since.subsec_nanos()).unwrap_or(Stamp::zero()),
        Err(_) => Stamp::zero(),
    }
}

/// The moment of the last change of the inode, which no call sets back. A moment before 1970 is zero.
fn changed(metadata: &Metadata) -> Stamp {
    let Ok(seconds) = u64::try_from(metadata.ctime()) else {
        return Stamp::zero();
    };
    let Ok(nanos) = u32::try_from(metadata.ctime_nsec()) else {
        return Stamp::zero();
    };
    Stamp::new(seconds, nanos).unwrap_or(Stamp::zero())
}

/// The times of the directory, or None where there is none.
fn look_up(rt: HostRuntime, dir: &[u8]) -> Result<Option<Times>, Failed> {
    let Some(path) = reachable(dir) else {
        return Ok(None);
    };
    match fs::symlink_metadata(&rt, path) {
        Ok(metadata) if metadata.is_dir() => {
            Ok(Some(Times {
                modified: modified(&metadata),
                changed: changed(&metadata),
            }))
        }
        Ok(_) => Ok(None),
        Err(error) if is_out_of_reach(error.kind()) => Ok(None),
        Err(_) => Err(Failed),
    }
}

/// An open directory. The first entry is read when it is opened, since some file systems refuse a listing only then.
#[derive(Drop)]
pub(crate) struct Entries {
    first: Option<DirEntry>,
    others: ReadDir,
}

/// Opens a directory to be listed.
pub(crate) fn open_entries(rt: HostRuntime, path: &str) -> io::Result<Entries> {
    let mut others = fs::read_dir(&rt, path)?;
    let first = match others.next() {
        Some(Ok(entry)) => Some(entry),
        Some(Err(error)) if error.kind() != ErrorKind::InvalidFilename => return Err(error),
        _ => None,
    };
    Ok(Entries { first, others })
}

/// The kind of an entry, or None where it is gone by now. What may not be looked at is a `File`.
fn kind_of(entry: &DirEntry) -> Result<Option<Kind>, Failed> {
    match entry.file_type() {
        Ok(file_type) if file_type.is_dir() => Ok(Some(Kind::Directory)),
        Ok(_) => Ok(Some(Kind::File)),
        Err(error) if error.kind() == ErrorKind::NotFound => Ok(None),
        Err(error) if is_out_of_reach(error.kind()) => Ok(Some(Kind::File)),
        Err(_) => Err(Failed),
    }
}

/// Moves the name of an entry into `into` and answers its kind, or None where the entry is to be skipped.
fn kept_entry(entry: &DirEntry, into: &mut PathBuf) -> Result<Option<Kind>, Failed>
    ensures { IfOk result (λ kept. IfSome kept (λ kind. IsTrue (is_name into.new))) }
{
    let name = entry.file_name().as_bytes();
    if !path_order::is_name(name) {
        return Ok(None);
    }
    let Ok(()) = into.set(name) else {
        return Ok(None);
    };
    kind_of(entry)
}

/// Moves the next name of a listing into `into` and answers its kind, or None after the last.
/// Names that are not UTF-8 are skipped, and so are those that are gone by now.
fn next_entry(entries: &mut Entries, into: &mut PathBuf) -> Result<Option<Kind>, Failed>
    ensures { IfOk result (λ given. IfSome given (λ kind. IsTrue (is_name into.new))) }
{
    if let Some(entry) = mem::replace(&mut entries.first, None) {
        let kind = kept_entry(&entry, into)?;
        if kind.is_some() {
            return Ok(kind);
        }
    }
    for _ in 0..u64::MAX {
        match entries.others.next() {
            Some(Ok(entry)) => {
                let kind = kept_entry(&entry, into)?;
                if kind.is_some() {
                    return Ok(kind);
                }
            }
            Some(Err(error)) if error.kind() == ErrorKind::InvalidFilename => {}
            Some(Err(_)) => return Err(Failed),
            None => return Ok(None),
        }
    }
    Err(Failed)
}

/// The host's directories. A contract sees whether a listing is open, the counts of openings and look-ups, and that of faults.
///
/// `stat`: a directory that is gone, or that can't be reached (by permission, because what is on the way is no directory,
/// for a name or path that is too long or not UTF-8, for a loop of links, or a mount that has lost its file system)
/// isn't there. Nor is a link. The times are those of the last change of content and of the inode; one before 1970 is zero.
///
/// `open_dir`: a directory that may not be listed, or may not be reached, is `Hidden`; any other that can't be reached is
/// `Missing`. A link in the last place is followed, so `stat` is to be asked first.
///
/// `next_name`: names come in the system's order. Names that are not UTF-8, and those that are gone by now, are skipped.
/// The kind of a name costs one system call; a name that is listed but may not be looked at is a `File`.
///
/// Any other fault is `Failed`, also one that breaks off a listing: a part of the names is never taken for all.
#[derive(Drop)]
pub struct HostTree {
    rt: HostRuntime,
    entries: Option<Entries>,
    openings: u64,
    stats: u64,
    faults: u64,
}

impl Model for HostTree {
    ghost use Rattle.std.specs.Prelude.{is_some};
    ghost use Rattle.loc_outside.specs.Host.{TreeCounts};

    ghost Value = { TreeCounts };

    ghost view = { λ h. record { listing = is_some h.entries; openings = h.openings; stats = h.stats; faults = h.faults } };
}

impl HostTree {
    /// The directories of this host, of which none is open.
    pub fn new(rt: HostRuntime) -> HostTree
        ensures { result ≡ record { listing = false; openings = 0; stats = 0; faults = 0 } }
    {
        HostTree {
            rt,
            entries: None,
            openings: 0,
            stats: 0,
            faults: 0,
        }
    }
}

impl Tree for HostTree {
    ghost dirs = { λ h. None };

    ghost rest = { λ h. None };

    ghost is_listing = { λ h. h.listing };

    ghost openings = { λ h. min h.openings last_count };

    ghost stats = { λ h. min h.stats last_count };

    ghost priced = { λ h path. true };

    ghost faults = { λ h. min h.faults last_count };

    ghost kept = { λ h k. ⊤ };

    ghost keeps_itself = { λ h. tt };

    ghost keeps_on = { λ h k l first then. tt };

    ghost keeps_dirs = { λ h k kept. refl };

    ghost keeps_priced = { λ h k path kept. refl };

    ghost openings_below = { λ h. stays_below h.openings };

    ghost stats_below = { λ h. stays_below h.stats };

    ghost faults_below = { λ h. stays_below h.faults };

    fn stat(&mut self, dir: &[u8]) -> Result<Option<Times>, Failed> {
        self.stats = self.stats.saturating_add(1);
        let Ok(times) = look_up(self.rt, dir) else {
            return Err(fault(&mut self.faults));
        };
        Ok(times)
    }

    fn open_dir(&mut self, dir: &[u8]) -> Result<Listing, Failed> {
        self.entries = None;
        self.openings = self.openings.saturating_add(1);
        let Some(path) = reachable(dir) else {
            return Ok(Listing::Missing);
        };
        match open_entries(self.rt, path) {
            Ok(entries) => {
                self.entries = Some(entries);
                Ok(Listing::Shown)
            }
            Err(error) if error.kind() == ErrorKind::PermissionDenied => Ok(Listing::Hidden),
            Err(error) if is_out_of_reach(error.kind()) => Ok(Listing::Missing),
            Err(_) => Err(fault(&mut self.faults)),
        }
    }

    fn next_name(&mut self, into: &mut PathBuf) -> Result<Option<Kind>, Failed> {
        let Some(entries) = &mut self.entries else {
            unreachable!();
        };
        match next_entry(entries, into) {
            Ok(Some(kind)) => Ok(Some(kind)),
            Ok(None) => {
                self.entries = None;
                Ok(None)
            }
            Err(_) => {
                self.entries = None;
                Err(fault(&mut self.faults))
            }
        }
    }
}

#[cfg(test)]
mod tests {
    use super::*;
    use path_order::later;
    use std::fs::File;
    use std::process;
    use std::test::Fail;

    // Whether a directory of any tree, of at most 99 names, has directories and files.
    fn kinds<T: Tree>(tree: &mut T, dir: &[u8]) -> Result<(bool, bool), Failed> {
        let Listing::Shown = tree.open_dir(dir)? else {
            return Err(Failed);
        };
        let mut directories = false;
        let mut files = false;
        let mut name = PathBuf::new();
        'names: for _ in 0..99u8 {
            let Some(kind) = tree.next_name(&mut name)? else {
                return Ok((directories, files));
            };
            directories |= kind == Kind::Directory;
            files |= kind == Kind::File;
        }
        Err(Failed)
    }

    #[test]
    fn lists_directories_of_the_host(rt: HostRuntime) {
        let mut tree = HostTree::new(rt);
        assert_eq!(rt; kinds(&mut tree, b"/proc/self"), Ok((true, true)));
        assert_eq!(rt; kinds(&mut tree, b"/proc/self/task"), Ok((true, false)));
        // What stands there are links.
        assert_eq!(rt; kinds(&mut tree, b"/proc/self/ns"), Ok((false, true)));
        assert_eq!(rt; tree.open_dir(b"/proc/version"), Ok(Listing::Missing));
        assert_eq!(rt; tree.open_dir(b"/nowhere/at/all"), Ok(Listing::Missing));
    }

    // A modification time is set back, as `touch -d`, `tar` and `rsync -a` do: the later time is still told.
    #[test]
    fn a_change_time_is_not_set_back(rt: HostRuntime) -> Result<(), Fail> {
        let name = format!(in rt.alloc(); "/tmp/host_tree_{}", process::id(rt.process()))?;
        fs::create_dir(&rt, &name)?;
        File::open(&rt, &name)?.set_modified(UNIX_EPOCH)?;
        let times = HostTree::new(rt).stat(name.as_bytes());
        fs::remove_dir(&rt, &name)?;
        match times {
            Ok(Some(times)) => {
                assert_eq!(rt; times.modified, Stamp::zero());
                assert!(rt; times.changed != Stamp::zero());
                assert_eq!(rt; later(times.modified, times.changed), times.changed);
            }
            _ => assert!(rt; false),
        }
        Ok(())
    }

    // A link, a file, what is below a file, nothing, no UTF-8, a byte 0, and a name that is too long.
    #[test]
    fn what_is_no_directory_has_no_times(rt: HostRuntime) {
        let mut tree = HostTree::new(rt);
        assert!(rt; matches!(tree.stat(b"/"), Ok(Some(_))));
        let long = [b'a'; 300];
        for missing in [
            b"/proc/self".as_slice(),
            b"/proc/version",
            b"/proc/version/below",
            b"/nowhere/at/all",
            b"/\xff",
            b"/\0",
            long.as_slice(),
        ] {
            assert!(rt; matches!(tree.stat(missing), Ok(None)));
        }
    }
}
