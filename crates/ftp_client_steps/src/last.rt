// The line that a server said last, as it is kept.
ghost use Rattle.std.specs.Prelude.{◌≡◌, [], take};
ghost use Rattle.ftp_client_model.specs.Telling.{kept_limit};

use arrayvec::ArrayVec;
use std::marker::Model;

/// The most octets of a line that are kept (own choice).
pub const KEPT_LIMIT: usize = 320;

/// The first octets of the line that a server said last, without its end. It takes no memory beside its own room.
#[derive(Drop)]
pub struct LastLine {
    octets: ArrayVec<u8, KEPT_LIMIT>,
}

impl Model for LastLine {
    ghost use Rattle.std.specs.Prelude.{List, ℕ};

    ghost Value = { List ℕ };

    ghost view = { λ line. line.octets.items };
}

impl LastLine {
    /// Nothing was said.
    pub fn new() -> LastLine
        ensures { result ≡ [] }
    {
        LastLine {
            octets: ArrayVec::new(),
        }
    }

    /// A line was said: it takes the place of the one before.
    #[tactic(auto, using(std::proofs::lemmas::List::take_min))]
    pub(crate) fn keep(&mut self, line: &[u8])
        ensures { self.new ≡ take kept_limit line.now }
    {
        let (front, _) = line.split_at(KEPT_LIMIT.min(line.len()));
        self.octets.clear();
        self.octets.try_extend_from_slice(front).unwrap();
    }

    /// The octets that are kept.
    pub fn as_slice(&self) -> &[u8]
        ensures { result.now ≡ self.now }
    {
        self.octets.as_slice()
    }
}
