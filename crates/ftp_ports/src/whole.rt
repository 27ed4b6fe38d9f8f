// A data connection that may be closed by an end.
ghost use Rattle.std.specs.Prelude.{◌≡◌, ◌≤◌, IfErr, IfOk};
ghost use Rattle.ftp_ports.specs.Whole.{IsCut, IsWhole};

/// Whether octets are still to be taken from the end that sends over a data connection.
#[derive(Clone, Copy, PartialEq, Eq)]
pub enum Rest {
    /// None: all were taken, or this end sends none.
    Nothing,
    More,
}

/// What became of a data connection.
#[derive(Clone, Copy, PartialEq, Eq)]
pub enum Fate {
    /// Octets may come and go.
    Sound,
    /// A read or a write of it failed, and this end was not told.
    Failed,
    /// This end was told that it broke.
    Broken,
    /// This end was told that the other end closed it.
    Over,
}

impl Fate {
    ghost use Rattle.ftp_ports.specs.Whole.{is_well};

    /// Whether no read or write of it failed.
    pub fn is_well(self) -> bool
        ensures { result ≡ is_well self }
    {
        match self {
            Fate::Sound | Fate::Over => true,
            Fate::Failed | Fate::Broken => false,
        }
    }
}

/// A stream over which all octets went that were taken from this end, and for which it has no more: its peer may take its end for the end of
/// the file (RFC 959, section 3.4.1). Only this crate makes one.
pub struct Whole<S> {
    stream: S,
    /// Up to where the octets that were taken last are written, and up to where they were taken.
    at: usize,
    end: usize,
    rest: Rest,
    fate: Fate,
    ghost whole: { IsWhole at end rest fate },
}

impl<S> Whole<S> {
    /// The stream, for whoever closes it by an end.
    pub fn into_stream(self) -> S
        ensures { result ≡ self.stream }
    {
        let Whole {
            stream,
            at: _,
            end: _,
            rest: _,
            fate: _,
        } = self;
        stream
    }

    /// The same of what stands in a stream.
    pub fn map<T, F: FnOnce(S) -> T>(self, inner: F) -> Whole<T>
        requires { F.IsAlwaysCallable inner }
        // Witness: an equation of what the closure gave.
        ensures { F.post inner self.stream result.stream }
    {
        let Whole {
            stream,
            at,
            end,
            rest,
            fate,
        } = self;
        Whole {
            stream: inner(stream),
            at,
            end,
            rest,
            fate,
        }
    }
}

/// A stream as a whole one, where it is; else as it was.
pub(crate) fn whole_of<S>(
    stream: S,
    at: usize,
    end: usize,
    rest: Rest,
    fate: Fate,
) -> Result<Whole<S>, S>
    requires { at ≤ end }
    ensures whole { IfOk result (λ whole. (whole.stream ≡ stream) × IsWhole at end rest fate) }
    ensures cut { IfErr result (λ kept. (kept ≡ stream) × IsCut at end rest fate) }
{
    if at == end && rest == Rest::Nothing && fate.is_well() {
        Ok(Whole {
            stream,
            at,
            end,
            rest,
            fate,
        })
    } else {
        Err(stream)
    }
}
