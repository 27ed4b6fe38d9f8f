//! What holds of lines in flight: a function that does nothing, whose contract is a law.
ghost use Rattle.ftp_ends.specs.Ear.{EarDropsAnswer, EarHearsEachLine};

/// A line that was written is heard as itself wherever it is cut, and an answer to a Telnet octet is dropped.
pub fn in_flight()
    // Witness: a written line and a Telnet answer, cut anywhere, to what is heard of them.
    ensures line { EarHearsEachLine }
    ensures answer { EarDropsAnswer }
{}
