// Room for one line.
ghost use Rattle.std.specs.Prelude.{◌≤◌, length};

use std::fmt;

/// The most octets that are written at once, an end of a line included: what a pipe takes without a wait that has room.
pub(crate) const LINE_ROOM: usize = 4_096;

/// The front of a text, which takes in at most 4,095 octets: what is more is left out.
#[derive(Drop)]
pub(crate) struct LogLineBuffer {
    octets: [u8; LINE_ROOM],
    count: usize,
    ghost within: { count ≤ 4096 },
}

impl LogLineBuffer {
    pub(crate) fn new() -> LogLineBuffer {
        LogLineBuffer {
            octets: [0; LINE_ROOM],
            count: 0,
        }
    }

    /// Ends the line.
    pub(crate) fn end(&mut self) {
        self.octets[self.count.min(LINE_ROOM - 1)] = b'\n';
        self.count = self.count.saturating_add(1).min(LINE_ROOM);
    }

    pub(crate) fn octets(&self) -> &[u8]
        ensures { length result.now ≤ 4096 }
    {
        let (octets, _) = self.octets.split_at(self.count);
        octets
    }

    /// At most so many octets at its front.
    pub(crate) fn front(&self, most: usize) -> &[u8] {
        let (front, _) = self.octets.split_at(self.count.min(most));
        front
    }

    /// Takes in what there is room for.
    pub(crate) fn put(&mut self, octets: &[u8]) {
        for octet in octets.iter() {
            if self.count < LINE_ROOM - 1 {
                self.octets[self.count] = *octet;
                self.count += 1;
            }
        }
    }
}

impl fmt::Write for LogLineBuffer {
    fn write_str(&mut self, text: &str) -> fmt::Result {
        self.put(text.as_bytes());
        Ok(())
    }
}
