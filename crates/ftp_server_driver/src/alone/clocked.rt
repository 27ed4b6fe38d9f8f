// A server, its clock, and one who looks on.

/// One who looks on while a server is driven: it is shown the server right behind each of its calls, and can't change it.
pub trait Watches<F> {
    /// A call of the server is done.
    fn saw(&mut self, server: &F);
}

/// Nobody looks on.
impl<F> Watches<F> for () {
    fn saw(&mut self, _server: &F) {}
}

/// A server, the clock that tells it the time, and one who looks on: the end that a drive of a server drives.
#[derive(Drop)]
pub struct Clocked<F, C, O> {
    pub server: F,
    pub watch: C,
    pub watcher: O,
}
