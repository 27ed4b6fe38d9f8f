// What an account may change of what it sees of the tree.
ghost use Rattle.std.specs.Prelude.{◌≡◌};
ghost use Rattle.ftp_operation.specs.Rights.{adding_rights, all_rights, joined, may_change, may_put, no_rights};

/// What an account may change of what it sees of the tree, each by itself. Whoever is logged in may look and fetch.
#[derive(Clone, Copy, Debug, PartialEq, Eq)]
pub struct Rights {
    /// Put files where none stands.
    pub put: bool,
    /// Replace files, and append to them.
    pub replace: bool,
    /// Delete files.
    pub delete: bool,
    /// Make directories.
    pub make_dir: bool,
    /// Remove directories.
    pub remove_dir: bool,
    /// Rename files and directories.
    pub rename: bool,
    /// Rename a file onto another, which is replaced.
    pub onto: bool,
}

impl Rights {
    /// All of them but to rename onto a file: RNTO onto what stands is refused to whoever has these.
    pub fn all() -> Rights
        ensures { result ≡ all_rights }
    {
        Rights {
            put: true,
            replace: true,
            delete: true,
            make_dir: true,
            remove_dir: true,
            rename: true,
            onto: false,
        }
    }

    /// None: to look and to fetch alone.
    pub fn none() -> Rights
        ensures { result ≡ no_rights }
    {
        Rights {
            put: false,
            replace: false,
            delete: false,
            make_dir: false,
            remove_dir: false,
            rename: false,
            onto: false,
        }
    }

    /// To put files and make directories where nothing stands.
    pub fn adding() -> Rights
        ensures { result ≡ adding_rights }
    {
        Rights {
            put: true,
            replace: false,
            delete: false,
            make_dir: true,
            remove_dir: false,
            rename: false,
            onto: false,
        }
    }

    /// Whether a file may be put where one stands, or where none does.
    pub fn may_put(self, stands: bool) -> bool
        // Witness: an equation; `who_may_put_may_replace.edit`, `who_may_look_may_put.edit`, beside the gate.
        ensures { result ≡ may_put self stands }
    {
        if self.put {
            self.replace || !stands
        } else {
            self.replace && stands
        }
    }

    /// Whether any of them is had: whoever has none may look and fetch alone.
    pub fn may_change(self) -> bool
        // Witness: an equation; caller: `Accounts::new`, `accounts` and `back`.
        ensures { result ≡ may_change self }
    {
        let of_files = self.put || self.replace || self.delete;
        let of_dirs = self.make_dir || self.remove_dir;
        of_files || of_dirs || self.rename || self.onto
    }

    /// These and those.
    pub fn joined(self, other: Rights) -> Rights
        ensures { result ≡ joined self other }
    {
        Rights {
            put: self.put || other.put,
            replace: self.replace || other.replace,
            delete: self.delete || other.delete,
            make_dir: self.make_dir || other.make_dir,
            remove_dir: self.remove_dir || other.remove_dir,
            rename: self.rename || other.rename,
            onto: self.onto || other.onto,
        }
    }
}
