// What a line behind the login asks.
ghost use Rattle.std.specs.Prelude.{◌≡◌};
ghost use Rattle.tool_script.specs.Order.{order_from};

use ftp_operation::{How, Op};

/// What a line of a script asks; `T` is how a text is held.
pub enum Order<T> {
    /// An operation, tried once.
    Once(Op<T>),
    /// An upload over breaks (as `ftp_client` does it): a path, the octets of the file, and how they go.
    Tries { path: T, octets: T, how: How },
}

/// By hand: a derived drop is proved again, part by part, wherever an order is let go.
impl<T: Drop> Drop for Order<T> {
    fn drop(self) {
        match self {
            Order::Once(_)
            | Order::Tries {
                path: _,
                octets: _,
                how: _,
            } => {}
        }
    }
}

impl<T: Drop> Order<T> {
    /// Takes it apart: the operation, or of an upload over breaks the path, the octets, and how they go.
    pub fn into_parts(self) -> Result<Op<T>, (T, T, How)>
        ensures { order_from result ≡ self }
    {
        match self {
            Order::Once(op) => Ok(op),
            Order::Tries { path, octets, how } => Err((path, octets, how)),
        }
    }
}
