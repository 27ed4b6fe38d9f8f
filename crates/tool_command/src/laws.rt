//! What words say is one. The calls do nothing that a caller needs: their contracts are the laws.
ghost use Rattle.std.specs.Prelude.{◌≡◌, ℕ, List};
ghost use Rattle.tool_command.specs.Amount.{SaysMost};
ghost use Rattle.tool_command.specs.Numbers.{SaysPortOrZero, SaysPorts, SaysSessions};
ghost use Rattle.tool_serve.specs.declared.sessions.SessionCount.{SessionCount};

/// A word says one limit at most.
pub fn one_most()
    // Witness: a law, proved of an empty body: a word says one number at most.
    ensures { (word : List ℕ) (most other : ℕ) → SaysMost word most → SaysMost word other
        → most ≡ other }
{}

/// A word says one port at most.
pub fn one_port()
    // Witness: a law, proved of an empty body: a word says one port, range or count at most.
    ensures { (word : List ℕ) (port other : ℕ) → SaysPortOrZero word port
        → SaysPortOrZero word other → port ≡ other }
{}

/// A word says one range of ports at most.
pub fn one_range()
    // Witness: as of `one_port`.
    ensures { (word : List ℕ) (first last other_first other_last : ℕ)
        → SaysPorts word first last → SaysPorts word other_first other_last
        → (first ≡ other_first) × (last ≡ other_last) }
{}

/// A word says one count at most.
pub fn one_count()
    // Witness: as of `one_port`.
    ensures { (word : List ℕ) (sessions other : SessionCount) → SaysSessions word sessions
        → SaysSessions word other → sessions ≡ other }
{}
