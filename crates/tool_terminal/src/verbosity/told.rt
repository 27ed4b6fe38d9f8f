// What of the texts of standard error is told.
ghost use Rattle.std.specs.Prelude.{◌≡◌};
ghost use Rattle.tool_terminal.specs.verbosity.Told.{is_told};

/// What is told on standard error.
#[derive(Clone, Copy, Debug, PartialEq, Eq)]
pub enum Verbosity {
    All,
    /// Errors alone: no progress, no notes, no summary.
    Errors,
}

/// Whether a text that begins with these octets, seven where there are so many, is told. Each error is a text of its own, and begins with `error: `.
pub fn is_told(told: Verbosity, text: &[u8]) -> bool
    // Witness: an equation; `edits/notes_are_told_with_quiet`.
    ensures { result ≡ is_told told text.now }
{
    match told {
        Verbosity::All => true,
        Verbosity::Errors => text.starts_with(b"error: "),
    }
}
