//! What holds of a whole file's text, in each mode, type and structure.

ghost use Rattle.std.specs.Prelude.{◌≡◌, ◌+◌, ◌<◌, ◌^◌, ℕ, List, length};
ghost use Rattle.ftp_pieces.specs.Machine.{gives};
ghost use Rattle.ftp_repr.specs.Signs.{signs_of};
ghost use Rattle.ftp_settings.specs.Representation.{Form};
ghost use Rattle.ftp_settings.specs.declared.representation.Structure.TheVariants.{File};
ghost use Rattle.ftp_settings.specs.declared.representation.Mode.{Mode};
ghost use Rattle.ftp_settings.specs.declared.representation.Mode.TheVariants.{Block};
ghost use Rattle.ftp_mode.specs.Block.{marked_text};
ghost use Rattle.ftp_mode.specs.Wire.{wire, image_file};
ghost use Rattle.ftp_mode.specs.Writing.{writer, blank_writing, with_marks};

/// The signs of a file are written as its one text, with its markers where they are asked for.
pub fn one_text()
    ensures plain { (m : Mode) (f : Form) (b : List ℕ) → gives writer (blank_writing m f.structure) (signs_of f b) ≡ wire m f b }
    ensures marked { (from : ℕ) (b : List ℕ) → from + length b < 2 ^ 64
        → gives writer (with_marks from (blank_writing Block File)) (signs_of image_file b) ≡ marked_text from b }
{}
