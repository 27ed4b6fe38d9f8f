// Why a line is refused.
use std::alloc::AllocError;

/// Why a line says no operation, or no login.
#[derive(Clone, Copy)]
pub enum LineFault {
    /// It fits no form.
    Unfit,
    /// The allocator refused a growth.
    Memory,
}

impl From<AllocError> for LineFault {
    ghost use Rattle.std.specs.Prelude.{◌≡◌};
    ghost use Rattle.tool_script.specs.declared.fault.LineFault.TheVariants.{Memory};

    ghost from_gives = { λ _ fault. fault ≡ Memory };

    fn from(_: AllocError) -> LineFault {
        LineFault::Memory
    }
}
