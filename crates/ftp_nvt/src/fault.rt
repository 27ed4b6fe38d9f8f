/// Why a call of this crate gave nothing.
#[derive(Clone, Copy, Debug, PartialEq, Eq)]
pub enum NvtFault {
    /// The memory that was asked for was refused.
    Memory,
}
