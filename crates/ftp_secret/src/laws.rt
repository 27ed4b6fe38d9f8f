//! What the definitions say of secrets. The calls do nothing: their contracts are the laws.
ghost use Rattle.std.specs.Prelude.{◌≡◌, ℕ, List, Ok};
ghost use Rattle.ftp_secret.specs.Places.{group_places, places_256, places_512};
ghost use Rattle.ftp_secret.specs.Secret.{read, secret_text};
ghost use Rattle.ftp_secret.specs.declared.method.Method.TheVariants.{Sha256, Sha512};
ghost use Rattle.ftp_secret.specs.declared.secret.Secret.{Secret};

/// A field that says a secret is what is written for it: so no two fields say one secret.
pub fn a_field_is_written_back()
    ensures { (field : List ℕ) (secret : Secret) → read field ≡ Ok secret → secret_text secret ≡ field }
{}

/// The groups of a digest are those of the tables of the published text (step 22).
pub fn groups_are_those()
    ensures small { group_places Sha256 10 ≡ places_256 }
    ensures large { group_places Sha512 21 ≡ places_512 }
{}
