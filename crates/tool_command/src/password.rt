// The subcommand `password`: its words.
ghost use Rattle.std.specs.Prelude.{ℕ, Option, IfOk, OnErr, codes};
ghost use Rattle.clap.specs.Words.{first_value, found_of};
ghost use Rattle.tool_command.specs.Numbers.{SaysIfGiven};

use crate::client_values::rounds_by;
use crate::help;
use crate::refusal::UsageError;
use crate::words::{Subcommand, ValueKind, Word, WordKind};
use clap::ArgMatches;

/// The words of `password`.
pub const PASSWORD: Subcommand<'static> = Subcommand {
    name: "password",
    about: "writes the field of a file of accounts that the password of standard input opens",
    usage: None,
    help: help::PASSWORD,
    words: &[Word {
        name: "rounds",
        kind: WordKind::Given(ValueKind::Number("N", 1_000, 1_000_000)),
        help: "how often a digest is made, 1000 to 1000000; 5000, if it is not given",
    }],
};

/// How often a digest is made, if `--rounds` says it; refused where that is no number.
pub fn rounds_of<'a>(words: &'a ArgMatches<'_>) -> Result<Option<u32>, UsageError<'a>>
    // Witness: `edits/rounds_that_are_said_are_not_heeded` (some), `rounds_that_are_a_number_are_refused` (none).
    ensures some { IfOk result (λ rounds.
        SaysIfGiven (first_value (found_of words.now) (codes "rounds")) rounds) }
    ensures none { OnErr result ((rounds : Option ℕ)
        → ¬ SaysIfGiven (first_value (found_of words.now) (codes "rounds")) rounds) }
{
    rounds_by(words.get_str("rounds"))
}
