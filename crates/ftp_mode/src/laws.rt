//! What holds of whole files and wires, in each mode, type and structure.

ghost use Rattle.std.specs.Prelude.{◌≡◌, ◌+◌, ◌<◌, ◌^◌, ◌++◌, ◌↔◌, ℕ, List, map, length};
ghost use Rattle.ftp_pieces.specs.Machine.{IsFront, after, gives};
ghost use Rattle.ftp_repr.specs.Signs.{Sign, signs_of};
ghost use Rattle.ftp_settings.specs.Representation.{Form};
ghost use Rattle.ftp_settings.specs.declared.representation.Structure.{Structure};
ghost use Rattle.ftp_settings.specs.declared.representation.Structure.TheVariants.{File};
ghost use Rattle.ftp_settings.specs.declared.representation.Mode.{Mode};
ghost use Rattle.ftp_settings.specs.declared.representation.Mode.TheVariants.{Block};
ghost use Rattle.ftp_mode.specs.declared.fault.FrameFault.{FrameFault};
ghost use Rattle.ftp_mode.specs.declared.fault.FrameFault.TheVariants.{EndedEarly};
ghost use Rattle.ftp_mode.specs.Said.{Said, says, file_signs};
ghost use Rattle.ftp_mode.specs.Block.{marked_text};
ghost use Rattle.ftp_mode.specs.Units.{Reads};
ghost use Rattle.ftp_mode.specs.Fault.{IsFault};
ghost use Rattle.ftp_mode.specs.Front.{Front};
ghost use Rattle.ftp_mode.specs.Reading.{reader, start, failed, at_wire_end};
ghost use Rattle.ftp_mode.specs.Wire.{wire, image_file};
ghost use Rattle.ftp_mode.specs.Laws.{ReadsTo, settled_content, ended_content, EndsItself};

/// The text of a file reads as its signs, whatever follows it where it ends by itself.
pub fn reads_again()
    ensures plain { (m : Mode) (f : Form) (b : List ℕ) → Reads m f.structure (wire m f b) (map (λ x. says x) (signs_of f b)) }
    ensures behind { (m : Mode) (f : Form) (b more : List ℕ) → EndsItself m f.structure
        → Reads m f.structure (wire m f b ++ more) (map (λ x. says x) (signs_of f b)) }
    ensures marked { (from : ℕ) (b more : List ℕ) → from + length b < 2 ^ 64
        → (said : List Said) × Reads Block File (marked_text from b ++ more) said × (file_signs said ≡ signs_of image_file b) }
{}

/// What was written of a file is read as the file.
pub fn round_trip()
    ensures plain { (m : Mode) (f : Form) (b : List ℕ) → ended_content m f (wire m f b) ≡ b }
    ensures behind { (m : Mode) (f : Form) (b more : List ℕ) → EndsItself m f.structure → ended_content m f (wire m f b ++ more) ≡ b }
    ensures marked { (from : ℕ) (b more : List ℕ) → from + length b < 2 ^ 64 → ended_content Block image_file (marked_text from b ++ more) ≡ b }
{}

/// A front of what was written settles a front of the file.
pub fn front()
    ensures plain { (m : Mode) (f : Form) (b w : List ℕ) → IsFront w (wire m f b) → IsFront (settled_content m f w) b }
    ensures marked { (from : ℕ) (b w : List ℕ) → from + length b < 2 ^ 64 → IsFront w (marked_text from b)
        → IsFront (settled_content Block image_file w) b }
{}

/// The reader ends well exactly where a wire reads as signs, and says those.
pub fn reads()
    ensures { (m : Mode) (s : Structure) (w : List ℕ) (said : List Said) → length w < 2 ^ 64 → Reads m s w said ↔ ReadsTo m s w said }
{}

/// The reader fails exactly where a wire has a fault, with the first one and its place.
pub fn faults()
    ensures { (m : Mode) (s : Structure) (w : List ℕ) (fault : FrameFault) → length w < 2 ^ 64
        → IsFault m s w fault ↔ (after reader (start m s) w ≡ failed fault) }
{}

/// A connection ended early exactly where the wire reads as nothing and has no fault.
pub fn early()
    ensures { (m : Mode) (s : Structure) (w : List ℕ) → length w < 2 ^ 64 → (at_wire_end (after reader (start m s) w) ≡ failed EndedEarly)
        ↔ (((said : List Said) → Reads m s w said → ⊥) × ((fault : FrameFault) → IsFault m s w fault → ⊥)) }
{}

/// What the reader says of a wire is what its longest row of whole units settles.
pub fn settles()
    ensures { (m : Mode) (s : Structure) (w : List ℕ) (said : List Said) → length w < 2 ^ 64 → Front m s w said ↔ (said ≡ gives reader (start m s) w) }
{}
