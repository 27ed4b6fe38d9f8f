// What holds of whole transfers, whatever the server answers. The calls do nothing that a caller needs: their contracts are the laws.
ghost use Rattle.std.specs.Prelude.{◌≡◌, ℕ, false, Option, Some};
ghost use Rattle.tool_resume.specs.Steps.{follows, is_own, is_try, kept_octets};
ghost use Rattle.tool_resume.specs.Tries.{follows_download};
ghost use Rattle.tool_resume.specs.Version.{is_seen_again};
ghost use Rattle.tool_resume.specs.declared.step.Ended.{Ended};
ghost use Rattle.tool_resume.specs.declared.step.There.{There};
ghost use Rattle.tool_resume.specs.declared.step.There.TheVariants.{Octets};
ghost use Rattle.tool_resume.specs.declared.step.TransferState.{TransferState};
ghost use Rattle.tool_resume.specs.declared.version.FileVersion.{FileVersion};

/// After the last try of a download no further one follows.
pub fn downloads_end()
    // Witness: a law, proved of an empty body.
    ensures { (ended : Ended) (came : ℕ) (before : FileVersion) (now : Option FileVersion)
        → is_try (follows_download 0 ended came before now) ≡ false }
{}

/// After the last try of an upload no further one follows.
pub fn uploads_end()
    // Witness: a law, proved of an empty body.
    ensures { (total : ℕ) (older : There) (ended : Ended) (there : There)
        → is_try (follows (record { total = total; left = 0; older = older }) ended there) ≡ false }
{}

/// Octets of a download stay only where the file that the server has then is seen to be the one that they came of.
pub fn one_file_is_downloaded()
    // Witness: a law, proved of an empty body.
    ensures { (left : ℕ) (ended : Ended) (came : ℕ) (before now : FileVersion) → is_seen_again before now ≡ false
        → kept_octets (follows_download left ended came before (Some now)) ≡ 0 }
{}

/// Octets that a server has stay only where they are known to be of this upload.
pub fn one_file_is_uploaded()
    // Witness: a law, proved of an empty body.
    ensures { (upload : TransferState) (ended : Ended) (count : ℕ) → is_own upload.older count ≡ false
        → kept_octets (follows upload ended (Octets count)) ≡ 0 }
{}
