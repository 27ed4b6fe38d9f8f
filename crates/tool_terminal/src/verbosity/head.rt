// The first octets of a text that is written.
ghost use Rattle.std.specs.Prelude.{◌≤◌};

use std::fmt;

/// How many octets say what a text is.
const HEAD: usize = 7;

/// The first seven octets of a text.
#[derive(Drop)]
pub(crate) struct Head {
    octets: [u8; HEAD],
    count: usize,
    ghost within: { count ≤ 7 },
}

impl Head {
    /// Of a text of which nothing was written.
    pub(crate) fn new() -> Head {
        Head {
            octets: [0; HEAD],
            count: 0,
        }
    }

    pub(crate) fn octets(&self) -> &[u8] {
        let (octets, _) = self.octets.split_at(self.count);
        octets
    }

    /// Takes in what there is room for.
    fn put(&mut self, octets: &[u8]) {
        for octet in octets.iter() {
            if self.count < HEAD {
                self.octets[self.count] = *octet;
                self.count += 1;
            }
        }
    }
}

impl fmt::Write for Head {
    fn write_str(&mut self, text: &str) -> fmt::Result {
        self.put(text.as_bytes());
        Ok(())
    }
}
