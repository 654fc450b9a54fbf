//! Files that are kept in memory.
ghost use Rattle.std.specs.Prelude.{◌≡◌, ◌<◌, ◌≤◌, ◌+◌, ◌^◌, length, take, drop, min, None, Some, OnOk, OnErr, MatchOption, IfSome};
ghost use Rattle.std.specs.FinMap as map;
ghost use Rattle.loc_outside.specs.Stored.{files_of, bytes_at, name_at, left_of as left_in};

use std::alloc::{AllocError, Global};

/// A file with its name.
#[derive(Drop)]
pub(crate) struct StoredFile {
    pub(crate) name: String,
    pub(crate) bytes: Vec<u8>,
}

/// The place of the file of this name.
pub(crate) fn find_file(files: &[StoredFile], name: &str) -> Option<usize>
    ensures found { MatchOption result (map.get (files_of files.now) name.now ≡ None)
        (λ i. (i < length files.now) × (map.get (files_of files.now) name.now ≡ Some (bytes_at files.now i))) }
    ensures named { IfSome result (λ i. name_at files.now i ≡ name.now) }
{
    for (i, file) in files.iter().enumerate() {
        if name == file.name.as_str() {
            return Some(i);
        }
    }
    None
}

/// Puts a file before the others, and takes out the one that had its name.
pub(crate) fn put_file(
    alloc: Global,
    files: &mut Vec<StoredFile>,
    name: &str,
    bytes: &[u8],
) -> Result<(), AllocError>
    ensures ok { OnOk result (files_of files.new.items ≡ map.insert (files_of files.old.items) name.now bytes.now) }
    ensures err { OnErr result (files.new.items ≡ files.old.items) }
{
    let file = StoredFile {
        name: String::from_str(alloc, name)?,
        bytes: bytes.to_vec(alloc)?,
    };
    let Some(place) = find_file(files, name) else {
        files.insert(0, file)?;
        return Ok(());
    };
    files.insert(0, file)?;
    files.remove(place + 1);
    Ok(())
}

/// Moves the first bytes into `into`, and answers their number.
pub(crate) fn give(left: &[u8], into: &mut [u8]) -> usize
    ensures count { result ≡ min (length left.now) (length into.old) }
    ensures bytes { take result into.new ≡ take result left.now }
{
    let count = left.len().min(into.len());
    into[..count].copy_from_slice(&left[..count]);
    count
}

/// What is left of an open file.
pub(crate) fn left_of(files: &[StoredFile], current: Option<usize>, at: usize) -> &[u8]
    ensures value { result.now ≡ left_in files.now current at }
    ensures fits { at + length result.now < 2 ^ 64 }
{
    let Some(place) = current else {
        return &[];
    };
    match files.get(place) {
        Some(file) if at < file.bytes.len() => &file.bytes[at..],
        _ => &[],
    }
}
