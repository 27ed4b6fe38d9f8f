// The programs, each one call: what stands on a trait without types of its own is proved for less than on those of the system's sockets, files and
// streams.
use crate::perform::perform;
use std::env::Env;
use std::fs::{File, Files};
use std::io::Write;
use std::net::{Net, TcpListener, TcpStream};
use std::random::RandomSource;
use std::time::Clock;
use std::{fs, io};
use tool_command::CommandTask;
use tool_get_put::{Each, FilePair};
use tool_job::Target;
use tool_login::User;
use tool_mirror::MirrorRequest;
use tool_pair::PairSettings;
use tool_serve::Serving;
use tool_session::ServerAddress;
use tool_terminal::{QuietHandle, Status};

/// What the program can do for a command line. Each call gives the exit status.
pub(crate) trait Programs {
    fn serve(&self, job: Serving<'_>) -> io::Result<Status>;

    fn play_loop(&self) -> io::Result<Status>;

    fn play_pair<F: Write>(&self, settings: PairSettings, faults: &mut F) -> Status;

    /// By so many rounds, or the default.
    fn password<F: Write>(&self, rounds: Option<u32>, faults: &mut F) -> Status;

    /// A user is named where the script says none.
    fn run(&self, server: ServerAddress<'_>, user: Option<User<'_>>) -> io::Result<Status>;

    fn mirror(&self, asked: MirrorRequest<'_>) -> io::Result<Status>;

    fn fetch(&self, asked: &Target<'_>, task: tool_get_put::PlaceTask<'_>) -> io::Result<Status>;

    /// Of several files of one server.
    fn fetch_each(
        &self,
        asked: &Target<'_>,
        each: Each<'_>,
        pairs: &[FilePair],
    ) -> io::Result<Status>;

    /// Between the standard streams.
    fn perform<F: Write>(&self, task: CommandTask, faults: &mut F) -> u8;

    /// Whether a folder of this machine has this name; `-` is standard output.
    fn is_folder(&self, name: &str) -> bool;
}

/// What `get` and its like, and `mirror`, tell on standard error is what is to be told; the others tell all.
impl<'a, R> Programs for QuietHandle<'a, R>
where
    R: Input
        + Print
        + Eprint
        + Env
        + Files<File = File>
        + AllocGlobal
        + Clock
        + RandomSource
        + Net<Listener = TcpListener, Stream = TcpStream>
        + Clone
        + Drop,
{
    fn serve(&self, job: Serving<'_>) -> io::Result<Status> {
        tool_serve::serve(self.rt, job)
    }

    fn play_loop(&self) -> io::Result<Status> {
        tool_loop::play(self.rt)
    }

    fn play_pair<F: Write>(&self, settings: PairSettings, faults: &mut F) -> Status {
        let mut reader = self.rt.reader();
        tool_pair::pair(
            self.rt.alloc(),
            settings,
            &mut reader,
            &mut io::writer(self.rt),
            faults,
        )
    }

    fn password<F: Write>(&self, rounds: Option<u32>, faults: &mut F) -> Status {
        tool_accounts::password(self.rt, rounds, faults)
    }

    fn run(&self, server: ServerAddress<'_>, user: Option<User<'_>>) -> io::Result<Status> {
        match user {
            Some(user) => tool_get_put::run_as(self.rt, server, user),
            None => tool_get_put::run(self.rt, server),
        }
    }

    fn mirror(&self, asked: MirrorRequest<'_>) -> io::Result<Status> {
        tool_mirror::mirror(self, asked)
    }

    fn fetch(&self, asked: &Target<'_>, task: tool_get_put::PlaceTask<'_>) -> io::Result<Status> {
        tool_get_put::fetch(self, asked, task)
    }

    fn fetch_each(
        &self,
        asked: &Target<'_>,
        each: Each<'_>,
        pairs: &[FilePair],
    ) -> io::Result<Status> {
        tool_get_put::fetch_each(self, asked, each, pairs)
    }

    fn perform<F: Write>(&self, task: CommandTask, faults: &mut F) -> u8 {
        let mut reader = self.rt.reader();
        perform(
            self.rt.alloc(),
            task,
            &mut reader,
            &mut io::writer(self.rt),
            faults,
        )
    }

    fn is_folder(&self, name: &str) -> bool {
        if name == "-" {
            return false;
        }
        match fs::metadata(self.rt, name) {
            Ok(found) => found.is_dir(),
            Err(_) => false,
        }
    }
}
