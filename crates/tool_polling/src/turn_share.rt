// What a session has had of its turn: which replies went, and how many octets of data connections.
ghost use Rattle.std.specs.Prelude.{◌≡◌};
ghost use Rattle.tool_polling.specs.TurnShare.{fresh_share, is_preliminary, share_after_octets, share_after_reply, share_has_moved, share_has_replied};
ghost use Rattle.tool_polling.specs.TurnShare.{share_has_spoken, share_held_back};

/// So many octets of data connections are the part of a turn.
const MOVED: usize = 32_768;

/// Which replies went in a turn.
#[derive(Clone, Copy)]
pub(crate) enum TurnReplies {
    /// None so far.
    Nothing,
    /// Preliminary ones alone, each of which is followed by another one (RFC 959, section 4.2.1).
    Preliminary,
    /// One that no other follows: none goes any more.
    Last,
    /// None, and none goes any more.
    HeldBack,
}

/// What a session has had of its turn.
#[derive(Clone, Copy)]
pub(crate) struct TurnShare {
    replies: TurnReplies,
    /// How many octets went over data connections, both ways; `usize::MAX` for more.
    octets: usize,
}

impl TurnShare {
    /// A turn begins.
    pub(crate) fn new() -> TurnShare
        ensures { result ≡ fresh_share }
    {
        TurnShare {
            replies: TurnReplies::Nothing,
            octets: 0,
        }
    }

    /// A reply went, or a front of it.
    pub(crate) fn after_reply(self, reply: &[u8]) -> TurnShare
        ensures { result ≡ share_after_reply self reply.now }
    {
        let replies = match self.replies {
            TurnReplies::Nothing | TurnReplies::Preliminary => {
                if is_preliminary(reply) {
                    TurnReplies::Preliminary
                } else {
                    TurnReplies::Last
                }
            }
            TurnReplies::Last | TurnReplies::HeldBack => TurnReplies::Last,
        };
        TurnShare {
            replies,
            octets: self.octets,
        }
    }

    /// No reply goes any more in this turn.
    pub(crate) fn held_back(self) -> TurnShare
        ensures { result ≡ share_held_back self }
    {
        let replies = match self.replies {
            TurnReplies::Nothing | TurnReplies::HeldBack => TurnReplies::HeldBack,
            TurnReplies::Preliminary | TurnReplies::Last => TurnReplies::Last,
        };
        TurnShare {
            replies,
            octets: self.octets,
        }
    }

    /// So many octets of a data connection went.
    pub(crate) fn after_octets(self, count: usize) -> TurnShare
        ensures { result ≡ share_after_octets self count }
    {
        TurnShare {
            replies: self.replies,
            octets: self.octets.saturating_add(count),
        }
    }

    /// Whether a reply went.
    pub(crate) fn has_spoken(self) -> bool
        ensures { result ≡ share_has_spoken self.replies }
    {
        match self.replies {
            TurnReplies::Preliminary | TurnReplies::Last => true,
            TurnReplies::Nothing | TurnReplies::HeldBack => false,
        }
    }

    /// Whether no reply goes any more.
    pub(crate) fn has_replied(self) -> bool
        ensures { result ≡ share_has_replied self.replies }
    {
        match self.replies {
            TurnReplies::Last | TurnReplies::HeldBack => true,
            TurnReplies::Nothing | TurnReplies::Preliminary => false,
        }
    }

    /// Whether as many octets of data connections went as are its part.
    pub(crate) fn has_moved(self) -> bool
        ensures { result ≡ share_has_moved self }
    {
        self.octets >= MOVED
    }
}

/// Whether a reply is a preliminary one, by the first digit of its code, `1` (RFC 959, section 4.2.1).
fn is_preliminary(reply: &[u8]) -> bool
    ensures { result ≡ is_preliminary reply.now }
{
    match reply {
        [first, ..] => *first == b'1',
        [] => false,
    }
}
