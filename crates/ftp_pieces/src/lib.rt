//! A machine that takes a row of one kind and gives a row of another, as definitions: what readers and writers of lines,
//! files and wires are stated by. No code, only laws about rows that are cut.
#![tactic(auto)]

ghost use Rattle.std.specs.Prelude.{◌≡◌, List, ◌++◌};
ghost use Rattle.ftp_pieces.specs.Machine.{Machine, after, gives, IsFront};

/// A row that comes in two pieces is taken as one: the machine goes on where the first left it.
pub fn pieces<S, I, O>()
    // Witness: laws about definitions, proved of an empty body: no body can be wrong.
    ensures state { (m : Machine S I O) (s : S) (xs ys : List I) → after m s (xs ++ ys) ≡ after m (after m s xs) ys }
    ensures given { (m : Machine S I O) (s : S) (xs ys : List I) →
        gives m s (xs ++ ys) ≡ gives m s xs ++ gives m (after m s xs) ys }
{}

/// For a front of a row a front of what the row gives is given.
pub fn fronts<S, I, O>()
    ensures { (m : Machine S I O) (s : S) (xs ys : List I) → IsFront xs ys → IsFront (gives m s xs) (gives m s ys) }
{}
