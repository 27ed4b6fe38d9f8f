// What a row writes, and what it was refused.
use rows_base::Paper;
use std::alloc::Global;

#[derive(Drop)]
pub struct TreeReport {
    pub paper: Paper,
    /// How many calls were refused for want of memory and then made again.
    pub memory: u64,
    /// The same for a device that failed.
    pub device: u64,
    /// How many growths it asked for.
    pub growths: u64,
}

impl TreeReport {
    pub fn new(alloc: Global) -> TreeReport {
        TreeReport {
            paper: Paper::new(alloc),
            memory: 0,
            device: 0,
            growths: 0,
        }
    }

    /// Counts a call that was refused by a device, or for want of memory.
    pub fn count(&mut self, is_device: bool) {
        if is_device {
            self.device = self.device.saturating_add(1);
        } else {
            self.memory = self.memory.saturating_add(1);
        }
    }
}
