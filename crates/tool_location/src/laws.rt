//! What a text names is one. The call does nothing that a caller needs: its contract is the law.
ghost use Rattle.std.specs.Prelude.{◌≡◌, ℕ, List};
ghost use Rattle.tool_location.specs.Location.{Names};

/// A text names one place at most.
pub fn one_place()
    ensures { (text host path other_host other_path : List ℕ) (port other_port : ℕ)
        → Names text host port path → Names text other_host other_port other_path
        → (host ≡ other_host) × (port ≡ other_port) × (path ≡ other_path) }
{}
