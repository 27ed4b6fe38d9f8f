// Which file of which server is meant, and who asks.
ghost use Rattle.std.specs.Prelude.{◌≡◌};
ghost use Rattle.tool_job.specs.single.Target.{first_until};

use ftp_operation::How;
use tool_location::Location;
use tool_login::User;
use tool_session::{Openings, ServerAddress, Stranger, Subject};

/// What is asked of which server, by whom.
#[derive(Clone, Copy)]
pub struct Target<'a> {
    pub place: Location<'a>,
    pub user: User<'a>,
    pub how: How,
    /// By which commands its data connections are asked for.
    pub openings: &'a Openings,
    /// For how many seconds the server may be silent; 0: without a limit.
    pub timeout: u32,
    /// Until when all is to be done, in milliseconds of the system's monotonic clock; none: without a limit.
    pub until: Option<u64>,
    /// Whether a transfer that takes more than a second is told of, each second at most.
    pub progress: bool,
    /// The most octets a second over a data connection; 0: without a limit.
    pub rate: u64,
    /// The most octets of a file; of one that is held in memory 1 GiB, where this is the most that a number can be.
    pub limit: u64,
    /// How many control connections there are at once, where several files are asked for.
    pub at_once: u32,
}

impl<'a> Target<'a> {
    /// Which server is asked.
    pub fn server(&self) -> ServerAddress<'a> {
        ServerAddress {
            host: self.place.host,
            port: self.place.port,
            timeout: self.timeout,
            until: self.until,
            progress: self.progress,
            rate: self.rate,
            at_once: self.at_once,
        }
    }

    /// The same, of several that are asked one after another: all are to be done until the moment of the first, which is noted in `until`, in milliseconds as
    /// above.
    pub fn within(self, until: &mut Option<u64>) -> Target<'a>
        // Witness of first: an equation; `edits/each_of_several_has_its_own_time`.
        ensures first { result.until ≡ first_until until.old self.entry.until }
        ensures noted { until.new ≡ first_until until.old self.entry.until }
    {
        let first = match *until {
            Some(first) => Some(first),
            None => self.until,
        };
        *until = first;
        Target {
            until: first,
            ..self
        }
    }

    /// The same at another path of the server.
    pub fn at<'b>(&self, path: &'b str) -> Target<'b>
    where
        'a: 'b,
        // Witness: an equation; `edits/another_path_is_asked_than_was_said`.
        ensures { result.place.path.now ≡ path.now }
    {
        Target {
            place: Location { path, ..self.place },
            ..*self
        }
    }

    /// How another host may have come to be at the other end of its data connection.
    pub fn stranger(&self) -> Stranger {
        self.openings.stranger(self.how)
    }

    /// What a fault may be of, where `file` is the file of this end.
    pub fn subject(&self, file: &'a str) -> Subject<'a> {
        Subject {
            server: self.server(),
            password_file: self.user.password_file,
            file,
        }
    }
}
