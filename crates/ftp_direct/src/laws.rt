// What holds of runs.
ghost use Rattle.std.specs.Prelude.{◌≡◌, ◌<◌, ◌^◌, ℕ, List, length, map};
ghost use Rattle.ftp_operation.specs.declared.op.Op.{Op};
ghost use Rattle.ftp_operation.specs.Answer.{Said};
ghost use Rattle.ftp_tree.specs.Tree.{Table};
ghost use Rattle.ftp_direct.specs.Direct.{State, answers};
ghost use Rattle.ftp_direct.specs.Run.{Ran, faults_told, moved_on};
ghost use Rattle.ftp_direct.specs.Laws.{OffsetsLead, PartsAreApart};
ghost use Rattle.ftp_direct.specs.Rights.{LookersChangeNothing, RightsComeFirst};

/// A run of fewer than 2^64 operations that left the count of device failures as it was says and leaves what the operations do on
/// a map, one after another.
pub fn steady_run()
    ensures { (count : ℕ) (old : State) (orders : List (Op (List ℕ) × ℕ)) (said : List Said) (table : Table) → length orders < 2 ^ 64 → Ran count old orders said count table →
        (said ≡ (answers old orders).0) × (table ≡ (answers old orders).1.table) }
{}

/// The answers of a run tell each failure of the device, and nothing else is told so: the count of failures has moved on by as many as
/// answers tell one.
pub fn failures_are_told()
    ensures { (before : ℕ) (old : State) (orders : List (Op (List ℕ) × ℕ)) (said : List Said) (after : ℕ) (table : Table) → Ran before old orders said after table →
        after ≡ moved_on (faults_told said) before }
{}

/// Operations below an account's root say what they say on the part of the map at and below it, as a map of its own, and leave the map with
/// what they leave of that part put in its place. So `..` never leads past the root, and nothing elsewhere is seen or changed.
pub fn parts_are_apart()
    ensures { PartsAreApart }
{}

/// An offset leads to a place of a file just where the first octets up to there go as so many; there is one at most.
pub fn offsets_lead()
    ensures { OffsetsLead }
{}

/// What an account may not do is refused before anything else by the map, but after an offset without a meaning; all else is refused as of an account
/// that may do all.
pub fn rights_come_first()
    ensures { RightsComeFirst }
{}

/// An account without a right to change changes nothing.
pub fn lookers_change_nothing()
    ensures { LookersChangeNothing }
{}
