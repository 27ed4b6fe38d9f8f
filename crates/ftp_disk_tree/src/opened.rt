// A file of a disk as it was when it was opened.
use ftp_disk_host::Host;

/// An open file: of which version, and how many octets that has. What others put in its place meanwhile is another file.
pub struct DiskOpen<H: Host> {
    pub(crate) file: H::File,
    pub(crate) version: u64,
    pub(crate) len: u64,
}

/// By hand, as that of the tree.
impl<H: Host> Drop for DiskOpen<H> {
    fn drop(self) {
        let Self {
            file: _,
            version: _,
            len: _,
        } = self;
    }
}
