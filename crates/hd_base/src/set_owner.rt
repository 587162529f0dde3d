// The owner and the group of an open file.
use std::fs::File;
use std::io;
use std::os::unix::fs::fchown;

/// An open file whose owner and group can be set.
pub trait SetOwner {
    /// Sets the owner and the group of what is open, whatever stands under its name by now. `None`
    /// leaves the one or the other as it is.
    fn set_owner(&self, owner: Option<u32>, group: Option<u32>) -> io::Result<()>;
}

impl SetOwner for File {
    fn set_owner(&self, owner: Option<u32>, group: Option<u32>) -> io::Result<()> {
        fchown(self, owner, group)
    }
}
