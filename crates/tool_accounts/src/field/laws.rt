//! What the definitions say of the field that is made of an input. The calls do nothing: their contracts are the laws.
ghost use Rattle.std.specs.Prelude.{◌≡◌, ℕ, List, Option, Ok};
ghost use Rattle.tool_accounts.specs.field.Field.{made_field};
ghost use Rattle.tool_accounts.specs.field.Opened.{OpensBy};
ghost use Rattle.tool_accounts.specs.field.Typed.{password_in};

/// The field that is made of an input is read as a secret, and the password of the input opens that.
pub fn a_password_opens_its_field()
    ensures { (rounds : Option ℕ) (salt input text : List ℕ) → made_field rounds salt input ≡ Ok text
        → (password : List ℕ) × (password_in input ≡ Ok password) × OpensBy text password }
{}
