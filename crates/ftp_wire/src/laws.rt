//! What the decoder settles, and what callers need of what was heard: functions that do nothing, whose contracts are laws.

ghost use Rattle.std.specs.Prelude.{◌≡◌, ◌++◌, ℕ, List, None};
ghost use Rattle.ftp_mode.specs.declared.fault.FrameFault.{FrameFault};
ghost use Rattle.ftp_mode.specs.Reading.{failed};
ghost use Rattle.ftp_wire.specs.Decoder.{Decoder, decoded, DecodesWhatIsSettled, WireGivesFile, MarkedWireGivesFile, FrontGivesFront, MarkedFrontGivesFront};
ghost use Rattle.ftp_wire.specs.Hearing.{AreQuiet, Hears};
ghost use Rattle.ftp_wire.specs.declared.decoded.Decoded.TheVariants.{More};

/// A decoder has settled what the wire settles that came, and the one text of a file, ended, gives the file.
pub fn decoder()
    // Witness: laws about definitions, proved of an empty body: the fold of the decoder tied to what a cut wire settles (`ftp_mode`) and to the one
    // text of a file (`ftp_mode`).
    ensures settled { DecodesWhatIsSettled }
    ensures whole { WireGivesFile }
    ensures marked { MarkedWireGivesFile }
    ensures front { FrontGivesFront }
    ensures marked_front { MarkedFrontGivesFront }
{}

/// Where nothing was told, every octet was quiet, and the decoder is the one behind them all. Quiet rows join.
pub fn quiet()
    // Witness: laws about definitions, proved of an empty body.
    ensures all { (most : ℕ) (d : Decoder) (w text : List ℕ) (new : Decoder) → Hears most d w None text More new → AreQuiet most d w × (new ≡ decoded d w) }
    ensures joined { (most : ℕ) (d : Decoder) (w v : List ℕ) → AreQuiet most d w → AreQuiet most (decoded d w) v → AreQuiet most d (w ++ v) }
{}

/// After a fault nothing changes.
pub fn after_fault()
    // Witness: laws about definitions, proved of an empty body.
    ensures { (d : Decoder) (fault : FrameFault) (w : List ℕ) → d.reading ≡ failed fault → decoded d w ≡ d }
{}
