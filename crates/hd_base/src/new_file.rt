// Files that are written beside the one whose place they take.
ghost use Rattle.std.specs.Io.KnownBytes.{Keeps};

use crate::SetOwner;
use crate::access::Access;
use crate::outputs::{refuse_open_file, refuse_outputs};
use std::alloc::Global;
use std::fs::{Metadata, OpenFile, OpenOptions, Permissions};
use std::io;
use std::io::{ErrorKind, Write};
use std::os::unix::fs::{MetadataExt, OpenOptionsExt, PermissionsExt};
use std::path::PathBuf;
use std::rt::Files;

/// How many names are tried for a new file.
const MOST_NAMES: u32 = 100;

/// How many links are followed, as many as the system follows.
const MOST_LINKS: u32 = 40;

/// A new file by its name, and the name of the file whose place it is to take.
#[derive(Drop)]
pub(crate) struct NewFile {
    name: String,
    target: PathBuf,
}

impl NewFile {
    /// Puts it in its place, at once.
    pub(crate) fn put<R: Files>(&self, files: &R) -> io::Result<()> {
        files.rename(self.name.as_str(), self.target.as_str())
    }

    /// Removes it. One that the system does not remove is left.
    pub(crate) fn remove<R: Files>(&self, files: &R) {
        files.remove_file(self.name.as_str()).ok();
    }
}

/// Opens a file to write to, of which no byte is written, and the new file that it is; none where it
/// is written at its place: what is no file with a length, such as a pipe or a device.
pub(crate) fn open_to_write<R: Files>(
    alloc: Global,
    files: &R,
    name: &str,
) -> io::Result<(R::File, Option<NewFile>)>
where
    R::File: SetOwner,
{
    let found = found_at(files, name)?;
    if let Some(found) = &found {
        refuse_outputs(files, found)?;
        if !found.is_file() {
            return open_in_place(files, name);
        }
    }
    let target = target_of(alloc, files, name)?;
    let old = match found {
        Some(_) => Some(open_old(files, target.as_str())?.1),
        None => None,
    };
    let (file, new) = create_beside(alloc, files, target, old.as_ref())?;
    Ok((file, Some(new)))
}

/// Hands on what was written to a file. Of a new one the system has stored all before it is put in
/// its place; what is no file with a length may have no store.
pub(crate) fn hand_on<R: Files>(
    files: &R,
    file: &mut R::File,
    new: &Option<NewFile>,
) -> io::Result<()>
    ensures { Keeps (R.File.contents file.old) (R.File.contents file.new) }
{
    file.flush()?;
    let Some(new) = new else {
        return match file.sync_all() {
            Err(error) if has_no_store(error.kind()) => Ok(()),
            synced => synced,
        };
    };
    file.sync_all()?;
    new.put(files)
}

fn has_no_store(kind: ErrorKind) -> bool {
    kind == ErrorKind::InvalidInput || kind == ErrorKind::Unsupported
}

// Opens what has no length. By now it may be a file that has one.
fn open_in_place<R: Files>(files: &R, name: &str) -> io::Result<(R::File, Option<NewFile>)> {
    let (file, found) = open_old(files, name)?;
    if found.is_file() {
        let message = "it became a file while it was opened";
        return Err(io::Error::new(ErrorKind::ResourceBusy, message));
    }
    Ok((file, None))
}

// Opens what stands under a name, whose bytes stay, and tells what it is. What may not be written to
// is not opened, and so not replaced.
fn open_old<R: Files>(files: &R, name: &str) -> io::Result<(R::File, Metadata)> {
    let file = OpenOptions::new().write(true).open(files, name)?;
    let found = file.metadata()?;
    refuse_outputs(files, &found)?;
    Ok((file, found))
}

// What a name leads to, through links; none where nothing is there.
fn found_at<R: Files>(files: &R, name: &str) -> io::Result<Option<Metadata>> {
    match files.metadata(name) {
        Ok(found) => Ok(Some(found)),
        Err(error) if error.kind() == ErrorKind::NotFound => Ok(None),
        Err(error) => Err(error),
    }
}

// The name that links lead to, one after the other.
fn target_of<R: Files>(alloc: Global, files: &R, name: &str) -> io::Result<PathBuf> {
    let mut path = PathBuf::from_str(alloc, name)?;
    for _ in 0..MOST_LINKS {
        let Some(link) = link_at(files, path.as_str())? else {
            return Ok(path);
        };
        refuse_open_file(files, &link)?;
        let text = files.read_link(alloc, path.as_str())?;
        path.pop();
        path.push(text)?;
    }
    Err(io::Error::from(ErrorKind::FilesystemLoop))
}

// The link that stands under a name; none where no link does.
fn link_at<R: Files>(files: &R, name: &str) -> io::Result<Option<Metadata>> {
    match files.symlink_metadata(name) {
        Ok(found) if found.is_symlink() => Ok(Some(found)),
        Ok(_) => Ok(None),
        Err(error) if error.kind() == ErrorKind::NotFound => Ok(None),
        Err(error) => Err(error),
    }
}

// A new file in the folder of a name, to take the place of an old one, where there is one.
fn create_beside<R: Files>(
    alloc: Global,
    files: &R,
    target: PathBuf,
    old: Option<&Metadata>,
) -> io::Result<(R::File, NewFile)>
where
    R::File: SetOwner,
{
    // Until the owner and the group are those of the old file, no one else may open the new one.
    let mode = old.map_or(0o666, |old| old.mode() & 0o700);
    let (file, name) = create_numbered(alloc, files, target.as_str(), mode)?;
    let new = NewFile { name, target };
    if let Some(old) = old {
        if let Err(error) = hand_down(old, &file) {
            new.remove(files);
            return Err(error);
        }
    }
    Ok((file, new))
}

// Gives a new file the group and the owner of an old one, each where the system allows it, and the
// permissions that go with those it then has.
fn hand_down<F: OpenFile + SetOwner>(old: &Metadata, file: &F) -> io::Result<()> {
    file.set_owner(None, Some(old.gid())).ok();
    file.set_owner(Some(old.uid()), None).ok();
    let new = file.metadata()?;
    let access = Access::of_mode(old.mode());
    let access = access.handed_on(new.uid() == old.uid(), new.gid() == old.gid());
    file.set_permissions(Permissions::from_mode(access.mode()))
}

// A new file whose name is a given one and a number, the first that no file has.
fn create_numbered<R: Files>(
    alloc: Global,
    files: &R,
    target: &str,
    mode: u32,
) -> io::Result<(R::File, String)> {
    let mut how = OpenOptions::new();
    how.write(true).create_new(true).mode(mode);
    for number in 0..MOST_NAMES {
        let name = format!(in alloc; "{target}.new{number}")?;
        match how.open(files, name.as_str()) {
            Ok(file) => return Ok((file, name)),
            Err(error) if error.kind() == ErrorKind::AlreadyExists => {}
            Err(error) => return Err(error),
        }
    }
    let message = "too many new files stand beside it";
    Err(io::Error::new(ErrorKind::AlreadyExists, message))
}
