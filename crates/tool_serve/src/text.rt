// A text that is kept as far as there is room for it.
ghost use Rattle.std.specs.Prelude.{◌≤◌};

/// The most octets of a text that are kept.
pub(crate) const TEXT_ROOM: usize = 255;

/// The front of a text.
#[derive(Clone, Copy)]
pub(crate) struct TextFront {
    room: [u8; TEXT_ROOM],
    count: usize,
    ghost within: { count ≤ 255 },
}

impl TextFront {
    pub(crate) fn new() -> TextFront {
        TextFront {
            room: [0; TEXT_ROOM],
            count: 0,
        }
    }

    /// The front of a text.
    pub(crate) fn front_of(text: &[u8]) -> TextFront {
        let mut kept = TextFront::new();
        for octet in text.iter().take(TEXT_ROOM) {
            kept.push(*octet);
        }
        kept
    }

    /// Puts an octet behind the others, where there is room.
    pub(crate) fn push(&mut self, octet: u8) {
        if self.count < TEXT_ROOM {
            self.room[self.count] = octet;
            self.count += 1;
        }
    }

    pub(crate) fn octets(&self) -> &[u8] {
        let (octets, _) = self.room.split_at(self.count);
        octets
    }
}
