// How many octets of a file are held in memory.
ghost use Rattle.std.specs.Prelude.{◌≡◌};
ghost use Rattle.tool_resume.specs.Held.{limit_held};

/// The most octets of a file that is held in memory, where none are said.
const HELD: u64 = 1_073_741_824;

/// The most octets of a file that is held in memory: as many as are said, and 1 GiB where `limit` is the greatest number there is.
pub fn limit_held(limit: u64) -> u64
    // Witness: an equation; `edits/what_is_held_in_memory_has_no_limit`.
    ensures { result ≡ limit_held limit }
{
    if limit == u64::MAX { HELD } else { limit }
}
