//! What holds of whole files and rows, in each type and structure.

ghost use Rattle.std.specs.Prelude.{◌≡◌, ◌≢◌, ◌↔◌, ◌++◌, ℕ, List, [], ◌∷◌, map, length, Bool};
ghost use Rattle.std.specs.List.{flat_map};
ghost use Rattle.ftp_pieces.specs.Machine.{IsFront, gives};
ghost use Rattle.ftp_repr.specs.Ascii.{IsAscii, asc, plain, settled};
ghost use Rattle.ftp_repr.specs.Signs.{Sign, octet, end_file, signs_of, wire_row};
ghost use Rattle.ftp_settings.specs.Representation.{Form};
ghost use Rattle.ftp_repr.specs.Records.{IsRecords, ended_record, read_records, signs_of_records};
ghost use Rattle.ftp_repr.specs.Receiving.{receiving, fresh};
ghost use Rattle.ftp_repr.specs.Runs.{IsRun};
ghost use Rattle.ftp_repr.specs.Skipping.{IsPlaceOfOffset, Skips, further};
ghost use Rattle.ftp_repr.specs.Content.{HasNoEnd, content, data_of, read_record, read_cut};
ghost use Rattle.ftp_settings.specs.declared.representation.Kind.{Kind};
ghost use Rattle.ftp_settings.specs.declared.representation.Structure.TheVariants.{File, Record};
ghost use Rattle.ftp_repr.specs.declared.skipping.Skipped.{Skipped};
ghost use Rattle.ftp_repr.specs.declared.skipping.Skipped.TheVariants.{Within, Left, Inside};

/// In type A a wire that has ended is read as the octets of its units, one for each, and what a file goes as is read
/// as the file. Of one that was cut a CR at its end is left out, and nothing else.
pub fn line_ends()
    // Witness: laws about definitions, proved of an empty body: no body can be wrong.
    ensures read { (w b : List ℕ) → IsAscii w b ↔ (plain w ≡ b) }
    ensures written { (b : List ℕ) → IsAscii (asc b) b }
    ensures cut { (w : List ℕ) → settled (w ++ 13 ∷ []) ≡ plain w }
    ensures whole { (w : List ℕ) (c : ℕ) → c ≢ 13 → settled (w ++ c ∷ []) ≡ plain (w ++ c ∷ []) }
{}

/// A file that was sent is received again; what a receiver makes of a row of signs is what the row says.
pub fn round_trip()
    ensures again { (f : Form) (b : List ℕ) → gives (receiving f) fresh (signs_of f b) ≡ b }
    ensures content { (f : Form) (ss : List Sign) → gives (receiving f) fresh ss ≡ content f ss }
{}

/// A front of a row of signs gives a front of the file.
pub fn front()
    ensures front { (f : Form) (ss ts : List Sign) → IsFront ss ts → IsFront (content f ss) (content f ts) }
{}

/// A file has one list of records and a tail, and its signs in records are theirs. Rows of the wire between ends of
/// records are read each by itself, with an LF for its end, and so is the row at the end, ended or cut.
pub fn records()
    ensures some { (b : List ℕ) → (rs : List (List ℕ)) × ((tail : List ℕ) × IsRecords b rs tail) }
    ensures one { (b : List ℕ) (rs qs : List (List ℕ)) (t u : List ℕ) →
        IsRecords b rs t → IsRecords b qs u → (rs ≡ qs) × (t ≡ u) }
    ensures sent { (k : Kind) (b : List ℕ) (rs : List (List ℕ)) (tail : List ℕ) → IsRecords b rs tail →
        signs_of (record { kind = k; structure = Record }) b ≡ signs_of_records k rs tail }
    ensures ended { (k : Kind) (ws : List (List ℕ)) (w : List ℕ) (more : List Sign) →
        content (record { kind = k; structure = Record }) (flat_map ended_record ws ++ (map octet w ++ end_file ∷ more))
        ≡ read_records k ws ++ read_record k w }
    ensures cut { (k : Kind) (ws : List (List ℕ)) (w : List ℕ) →
        content (record { kind = k; structure = Record }) (flat_map ended_record ws ++ map octet w)
        ≡ read_records k ws ++ read_cut k w }
{}

/// In file structure a file goes as its converted octets and an end of file; ends of records in a row are left out, and
/// all its octets are read as one, ended or cut.
pub fn files()
    ensures sent { (k : Kind) (b : List ℕ) →
        signs_of (record { kind = k; structure = File }) b ≡ map octet (wire_row k b) ++ end_file ∷ [] }
    ensures ended { (k : Kind) (ss more : List Sign) → HasNoEnd ss →
        content (record { kind = k; structure = File }) (ss ++ end_file ∷ more) ≡ read_record k (data_of ss) }
    ensures cut { (k : Kind) (ss : List Sign) → HasNoEnd ss →
        content (record { kind = k; structure = File }) ss ≡ read_cut k (data_of ss) }
{}

/// There is one run in front of the first octet that stops it.
pub fn runs()
    ensures { (stops : ℕ → Bool) (w : List ℕ) (n m : ℕ) → IsRun stops w n → IsRun stops w m → n ≡ m }
{}

/// A count of octets of the wire leads to one place of a file at most, and `skip` has one answer. Of a piece in front
/// the answer stays, whatever follows; where octets are left, the next piece goes on with them.
pub fn places()
    ensures one { (k : Kind) (b : List ℕ) (n p q : ℕ) → IsPlaceOfOffset k b n p → IsPlaceOfOffset k b n q → p ≡ q }
    ensures answer { (k : Kind) (b : List ℕ) (n : ℕ) (r s : Skipped) → Skips k b n r → Skips k b n s → r ≡ s }
    ensures within { (k : Kind) (b more : List ℕ) (n p : ℕ) → Skips k b n (Within p) → Skips k (b ++ more) n (Within p) }
    ensures inside { (k : Kind) (b more : List ℕ) (n : ℕ) → Skips k b n Inside → Skips k (b ++ more) n Inside }
    ensures left { (k : Kind) (b d : List ℕ) (n m : ℕ) (r : Skipped) →
        Skips k b n (Left m) → Skips k d m r → Skips k (b ++ d) n (further (length b) r) }
{}
