// The standard output and the standard error, as files that are not to be written over.
use std::fs::Metadata;
use std::io;
use std::io::ErrorKind;
use std::os::unix::fs::{FileTypeExt, MetadataExt};
use std::rt::Files;

/// The links of the system to what the two are, and why neither is written to by another name.
const OUTPUTS: [(&str, &str); 2] = [
    ("/proc/self/fd/1", "it is the standard output"),
    ("/proc/self/fd/2", "it is the standard error"),
];

/// Refuses what is the standard output or the standard error. A character device takes what is
/// written to it by any name.
pub(crate) fn refuse_outputs<R: Files>(files: &R, found: &Metadata) -> io::Result<()> {
    if found.file_type().is_char_device() {
        return Ok(());
    }
    for (link, reason) in OUTPUTS {
        let Ok(output) = files.metadata(link) else {
            let reason = "without /proc it may be the standard output";
            return Err(io::Error::new(ErrorKind::Unsupported, reason));
        };
        if output.dev() == found.dev() && output.ino() == found.ino() {
            return Err(io::Error::new(ErrorKind::ResourceBusy, reason));
        }
    }
    Ok(())
}

/// Refuses a link of the system to an open file: what else writes to that would lose it.
pub(crate) fn refuse_open_file<R: Files>(files: &R, link: &Metadata) -> io::Result<()> {
    match files.symlink_metadata("/proc/self") {
        Ok(own) if own.dev() == link.dev() => {
            let reason = "it is a link to an open file, which has a name of its own";
            Err(io::Error::new(ErrorKind::ResourceBusy, reason))
        }
        _ => Ok(()),
    }
}
