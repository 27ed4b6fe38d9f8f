// One way of a connection: how many octets are on their way over it, and whether more may come.
ghost use Rattle.std.specs.Prelude.{◌≡◌};
ghost use Rattle.tool_loop.specs.Way.{fresh_way, reads_at_once, room_of_way, spoken_over, way_after_cut, way_after_end, way_after_read, way_after_write};
ghost use Rattle.tool_loop.specs.Way.{writes_at_once};

use ftp_ports::Spoken;

/// The most octets that are on their way at once.
const LIMIT: usize = 4096;

/// What may still come over a way.
#[derive(Clone, Copy)]
pub(crate) enum Flow {
    /// Octets, and then an end.
    Open,
    /// What is on its way, and then the end.
    Ended,
    /// Nothing: who sends was reset, or nobody takes any more.
    Broken,
}

/// How one way of a connection stands.
#[derive(Clone, Copy)]
pub(crate) struct Way {
    /// How many octets were written and are not read yet.
    pub(crate) outstanding: usize,
    pub(crate) flow: Flow,
}

impl Way {
    /// Nothing is on its way yet.
    pub(crate) fn new() -> Way
        ensures { result ≡ fresh_way }
    {
        Way {
            outstanding: 0,
            flow: Flow::Open,
        }
    }

    /// How many more octets may be on their way.
    pub(crate) fn room(self) -> usize
        ensures { result ≡ room_of_way self }
    {
        LIMIT.saturating_sub(self.outstanding)
    }

    /// So many octets were written.
    pub(crate) fn after_write(self, count: usize) -> Way
        ensures { result ≡ way_after_write self count }
    {
        Way {
            outstanding: self.outstanding.saturating_add(count),
            flow: self.flow,
        }
    }

    /// So many octets were read.
    pub(crate) fn after_read(self, count: usize) -> Way
        ensures { result ≡ way_after_read self count }
    {
        Way {
            outstanding: self.outstanding.saturating_sub(count),
            flow: self.flow,
        }
    }

    /// Its sender sends nothing more.
    pub(crate) fn after_end(self) -> Way
        ensures { result ≡ way_after_end self }
    {
        let flow = match self.flow {
            Flow::Open | Flow::Ended => Flow::Ended,
            Flow::Broken => Flow::Broken,
        };
        Way {
            outstanding: self.outstanding,
            flow,
        }
    }

    /// Nothing more comes over it.
    pub(crate) fn after_cut(self) -> Way
        ensures { result ≡ way_after_cut self }
    {
        Way {
            outstanding: self.outstanding,
            flow: Flow::Broken,
        }
    }

    /// Whether a read ends at once.
    pub(crate) fn reads_at_once(self) -> bool
        ensures { result ≡ reads_at_once self.flow self.outstanding }
    {
        match self.flow {
            Flow::Open => self.outstanding > 0,
            Flow::Ended | Flow::Broken => true,
        }
    }

    /// Whether a write of so many octets ends at once.
    pub(crate) fn writes_at_once(self, count: usize) -> bool
        ensures { result ≡ writes_at_once self.flow count (room_of_way self) }
    {
        match self.flow {
            Flow::Open => count <= self.room(),
            Flow::Ended | Flow::Broken => true,
        }
    }

    /// What a control connection has, where this is the way that comes.
    pub(crate) fn spoken(self) -> Spoken
        ensures { result ≡ spoken_over self.flow self.outstanding }
    {
        match self.flow {
            Flow::Ended | Flow::Broken => Spoken::Ended,
            Flow::Open => {
                if self.outstanding > 0 {
                    Spoken::Octets
                } else {
                    Spoken::Nothing
                }
            }
        }
    }
}
