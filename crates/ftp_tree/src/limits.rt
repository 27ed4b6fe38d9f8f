// How much a tree may hold.
ghost use Rattle.std.specs.Prelude.{◌≡◌};
ghost use Rattle.ftp_tree.specs.Tree.{default_limits};

/// How much a tree may hold, of octets and of nodes. More than 10 ^ 17 octets are none, whatever a limit says.
#[derive(Clone, Copy)]
pub struct Limits {
    /// The most octets of a file.
    pub file: u64,
    /// The most octets of all files at or below an account's root together.
    pub total: u64,
    /// The most nodes below an account's root.
    pub nodes: u64,
}

impl Limits {
    /// Those of a tree that is told no others (own choices): 67,108,864 octets of a file, as many of all files together, and
    /// 16,384 nodes.
    pub const DEFAULT: Limits = Limits {
        file: 67_108_864,
        total: 67_108_864,
        nodes: 16_384,
    };
}

impl Default for Limits {
    fn default() -> Limits
        ensures { result ≡ default_limits }
    {
        Limits::DEFAULT
    }
}
