//! What is printed, read back. The calls do nothing: their contracts are the laws.
ghost use Rattle.std.specs.Prelude.{◌≡◌, ◌<◌, ℕ, List, Some, All};
ghost use Rattle.tool_script.specs.Field.{field_text, field_value};

/// The field that a report has of octets says these octets.
pub fn fields_come_back()
    // Witness: it is a law.
    ensures { (octets : List ℕ) → All (λ octet. octet < 256) octets → field_value (field_text octets) ≡ Some octets }
{}
