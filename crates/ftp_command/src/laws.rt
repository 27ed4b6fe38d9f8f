//! What holds of all lines and all commands: functions that do nothing, whose contracts are laws.
ghost use Rattle.std.specs.Prelude.{◌≡◌, List, ℕ};
ghost use Rattle.ftp_command.specs.Command.{Refuses, Says};
ghost use Rattle.ftp_command.specs.Line.{IsLine, IsStated, IsTyped, line_of};
ghost use Rattle.ftp_command.specs.Verb.{Names};
ghost use Rattle.ftp_command.specs.declared.command.Command.{Command};
ghost use Rattle.ftp_command.specs.declared.fault.CommandFault.{CommandFault};
ghost use Rattle.ftp_command.specs.declared.verb.Verb.{Verb};

/// No word names two verbs, no line says two commands, none is said and refused, and none is refused in two ways.
pub fn one_meaning()
    ensures verb { (word : List ℕ) (v w : Verb) → Names word v → Names word w → v ≡ w }
    ensures command { (line : List ℕ) (v w : Command (List ℕ)) → Says line v → Says line w → v ≡ w }
    ensures apart { (line : List ℕ) (v : Command (List ℕ)) (fault : CommandFault) → Says line v → ¬ Refuses line fault }
    ensures fault { (line : List ℕ) (f g : CommandFault) → Refuses line f → Refuses line g → f ≡ g }
{}

/// The line that is written for a command says it, says no other, and is one that a control connection can carry: so a
/// command has a line where it is stated, and only there.
pub fn round_trip()
    ensures carried { (v : Command (List ℕ)) → IsTyped v → IsStated v → IsLine (line_of v) }
    ensures says { (v : Command (List ℕ)) → IsTyped v → IsStated v → Says (line_of v) v }
    ensures alone { (v w : Command (List ℕ)) → IsTyped v → IsStated v → Says (line_of v) w → w ≡ v }
{}

/// Where `write` says BadArgument, no line says the command.
pub fn only_stated()
    ensures { (line : List ℕ) (v : Command (List ℕ)) → IsLine line → Says line v → IsStated v }
{}
