// What is known of lines that could not be written.
ghost use Rattle.std.specs.Prelude.{◌≡◌};
ghost use Rattle.tool_log.specs.Lost.{lost_after, nothing};

/// The lines that were lost since the last one that was written.
#[derive(Clone, Copy)]
pub(crate) struct Lost {
    /// How many, `u64::MAX` for more.
    pub(crate) lines: u64,
    /// Whether the front of one was written, without its end.
    pub(crate) is_torn: bool,
}

impl Lost {
    pub(crate) fn nothing() -> Lost
        ensures { result ≡ nothing }
    {
        Lost {
            lines: 0,
            is_torn: false,
        }
    }

    /// Of a line of so many octets so many were written.
    pub(crate) fn after(self, length: usize, written: usize) -> Lost
        ensures { result ≡ lost_after self length written }
    {
        if written == length {
            return Lost::nothing();
        }
        Lost {
            lines: self.lines.saturating_add(1),
            is_torn: self.is_torn || written != 0,
        }
    }
}
