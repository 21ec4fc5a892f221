// A file that is put: its bytes go to an unfinished file of their own, in the folder of the path, which takes the
// path's place once all of it is on the device.
use std::alloc::Global;
use std::fs::{File, Files, OpenFile, OpenOptions, Permissions, TryLockError};
use std::io::{ErrorKind, Write};
use std::os::unix::fs::MetadataExt;
use std::path::Path;
use std::{fs, io};

/// The most links that are followed from a path, one after the other.
const MOST_LINKS: u32 = 40;

/// The most unfinished files of one path.
const MOST_UNFINISHED: u32 = 1000;

/// The longest name of a file that the name of its unfinished file begins with, in bytes.
const LONGEST_STEM: usize = 200;

/// What the name of an unfinished file begins with where that of the file itself is longer.
const SHORT_STEM: &str = "dremel";

/// A file that a program can claim for itself, until it is closed or the program ends.
pub trait Claim {
    /// Claims the file, where no other program has.
    fn claim(&self) -> Result<(), TryLockError>;
}

impl Claim for File {
    fn claim(&self) -> Result<(), TryLockError> {
        self.try_lock()
    }
}

// A file that this program has made and claimed, and the path at which it stands.
#[derive(Drop)]
struct Unfinished<F> {
    path: String,
    file: F,
}

/// Puts the bytes at a path, whole or not at all, where a file stands there, or nothing. Anything else, as a pipe or a
/// device, is written as it stands. At the end of links is the file that they lead to.
pub fn place<R: Files>(alloc: Global, files: &R, path: &str, bytes: &[u8]) -> io::Result<()>
where
    R::File: Claim,
{
    match OpenOptions::new().write(true).open(files, path) {
        Ok(old) => place_over(alloc, files, path, old, bytes),
        Err(error) if error.kind() == ErrorKind::NotFound => replace(
            alloc, files, path, None, bytes,
        ),
        Err(error) => Err(error),
    }
}

// Puts the bytes in the place of what stands at a path, and is open for writing.
fn place_over<R: Files>(
    alloc: Global,
    files: &R,
    path: &str,
    mut old: R::File,
    bytes: &[u8],
) -> io::Result<()>
where
    R::File: Claim,
{
    let metadata = old.metadata()?;
    if !metadata.is_file() {
        return old.write_all(bytes);
    }
    drop(old);
    replace(alloc, files, path, Some(metadata.permissions()), bytes)
}

// Puts a file that is whole in the place of the one at a path, if there is one.
fn replace<R: Files>(
    alloc: Global,
    files: &R,
    path: &str,
    permissions: Option<Permissions>,
    bytes: &[u8],
) -> io::Result<()>
where
    R::File: Claim,
{
    let path = end_of_links(alloc, files, path)?;
    let mut unfinished = begin(alloc, files, path.as_str())?;
    let written = finish(files, &mut unfinished, path.as_str(), permissions, bytes);
    if written.is_err() {
        let _ = fs::remove_file(files, unfinished.path.as_str());
    }
    written?;
    drop(unfinished);
    sync_folder(files, folder_of(path.as_str()))
}

// Writes the unfinished file, and gives it the path when all of it is on the device.
fn finish<R: Files>(
    files: &R,
    unfinished: &mut Unfinished<R::File>,
    path: &str,
    permissions: Option<Permissions>,
    bytes: &[u8],
) -> io::Result<()> {
    let file = &mut unfinished.file;
    if let Some(permissions) = permissions
        && file.metadata()?.permissions() != permissions
    {
        file.set_permissions(permissions)?;
    }
    file.write_all(bytes)?;
    file.sync_all()?;
    fs::rename(files, unfinished.path.as_str(), path)
}

// The path to which the links at a path lead, where nothing may stand.
fn end_of_links<R: Files>(alloc: Global, files: &R, path: &str) -> io::Result<String> {
    let mut end = String::from_str(alloc, path)?;
    'links: for _ in 0..MOST_LINKS {
        match fs::symlink_metadata(files, end.as_str()) {
            Ok(metadata) if metadata.is_symlink() => {
                let next = files.read_link(alloc, end.as_str())?;
                let folder = Path::new(folder_of(end.as_str()));
                end = folder.join(alloc, next)?.into_string();
            }
            Err(error) if error.kind() != ErrorKind::NotFound => return Err(error),
            _ => return Ok(end),
        }
    }
    Err(io::Error::from(ErrorKind::FilesystemLoop))
}

// The folder in which the file at a path stands.
fn folder_of(path: &str) -> &str {
    match Path::new(path).parent() {
        Some(folder) if folder.as_str().is_empty() => ".",
        Some(folder) => folder.as_str(),
        None => "/",
    }
}

// Makes an unfinished file for a path, by the first number at which none stands that another program has claimed.
fn begin<R: Files>(alloc: Global, files: &R, path: &str) -> io::Result<Unfinished<R::File>>
where
    R::File: Claim,
{
    'numbers: for number in 0..MOST_UNFINISHED {
        let path = unfinished_path(alloc, path, number)?;
        remove_left(files, path.as_str());
        if let Some(unfinished) = make(files, path)? {
            return Ok(unfinished);
        }
    }
    Err(io::Error::from(ErrorKind::AlreadyExists))
}

// Makes and claims an unfinished file at a path; none where something stands there, or another program has claimed it.
fn make<R: Files>(files: &R, path: String) -> io::Result<Option<Unfinished<R::File>>>
where
    R::File: Claim,
{
    let made = OpenOptions::new()
        .write(true)
        .create_new(true)
        .open(files, path.as_str());
    let file = match made {
        Ok(file) => file,
        Err(error) if error.kind() == ErrorKind::AlreadyExists => return Ok(None),
        Err(error) => return Err(error),
    };
    match is_claimed(files, &file, path.as_str()) {
        Ok(true) => Ok(Some(Unfinished { path, file })),
        Ok(false) => Ok(None),
        Err(error) => {
            let _ = fs::remove_file(files, path.as_str());
            Err(error)
        }
    }
}

// The path of the unfinished file of a number, in the folder of a path.
fn unfinished_path(alloc: Global, path: &str, number: u32) -> io::Result<String> {
    let stem = match Path::new(path).file_name() {
        Some(name) if name.len() <= LONGEST_STEM => name,
        _ => SHORT_STEM,
    };
    let name = format!(in alloc; "{stem}.unfinished-{number}")?;
    Ok(Path::new(folder_of(path)).join(alloc, name)?.into_string())
}

// Removes the unfinished file at a path, where the program that made it has ended.
fn remove_left<R: Files>(files: &R, path: &str)
where
    R::File: Claim,
{
    match fs::symlink_metadata(files, path) {
        Ok(metadata) if metadata.is_file() => {}
        _ => return,
    }
    let Ok(file) = OpenOptions::new().write(true).open(files, path) else {
        return;
    };
    if file.claim().is_ok() && matches!(stands_at(files, &file, path), Ok(true)) {
        let _ = fs::remove_file(files, path);
    }
}

// Claims a file that was just made at a path: whether no other program took it for one that is left, and has removed
// it. Where the system lets no file be claimed, none does that.
fn is_claimed<R: Files>(files: &R, file: &R::File, path: &str) -> io::Result<bool>
where
    R::File: Claim,
{
    match file.claim() {
        Err(TryLockError::WouldBlock) => Ok(false),
        _ => stands_at(files, file, path),
    }
}

// Whether an open file is the one at a path.
fn stands_at<R: Files>(files: &R, file: &R::File, path: &str) -> io::Result<bool> {
    let own = file.metadata()?;
    match fs::metadata(files, path) {
        Ok(there) => Ok(own.dev() == there.dev() && own.ino() == there.ino()),
        Err(error) if error.kind() == ErrorKind::NotFound => Ok(false),
        Err(error) => Err(error),
    }
}

// Has the folder's names written to the device, where the system lets that be asked for.
fn sync_folder<R: Files>(files: &R, folder: &str) -> io::Result<()> {
    match synced(files, folder) {
        Err(error) if lets_no_sync(error.kind()) => Ok(()),
        answer => answer,
    }
}

fn synced<R: Files>(files: &R, folder: &str) -> io::Result<()> {
    File::open(files, folder)?.sync_all()
}

// A folder that may not be read can't be opened, and some systems sync none.
fn lets_no_sync(kind: ErrorKind) -> bool {
    kind == ErrorKind::PermissionDenied
        || kind == ErrorKind::InvalidInput
        || kind == ErrorKind::Unsupported
}
