// The session log of a session looks on while its server is driven.
ghost use Rattle.std.specs.Global.{Global};

use crate::log_line::Tells;
use crate::session_log::SessionLog;
use ftp_disk_tree::Prepares;
use ftp_server_driver::Watches;
use ftp_server_model::Far;
use ftp_tree::Tree;
use std::alloc::Global;
use std::marker::PhantomData;
use std::rc::Rc;

/// A session log that is told of each call of a server over a tree `T`.
#[derive(Drop)]
pub(crate) struct Watching<'a, R: Tells, T> {
    /// By which the session log tells: it lives as long.
    _rt: &'a R,
    session_log: Rc<SessionLog<'a, R>, Global>,
    _over: PhantomData<T>,
}

impl<'a, R: Tells, T> Watching<'a, R, T> {
    pub(crate) fn new(rt: &'a R, session_log: Rc<SessionLog<'a, R>, Global>) -> Watching<'a, R, T> {
        Watching {
            _rt: rt,
            session_log,
            _over: PhantomData,
        }
    }
}

impl<'a, R, T, F> Watches<F> for Watching<'a, R, T>
where
    R: Tells,
    T: Tree<Global> + Prepares,
    F: Far<Global, T>,
{
    fn saw(&mut self, server: &F) {
        self.session_log.saw(server);
    }
}
