// Some turns of a session, with a tree that is lent.
ghost use Rattle.std.specs.Prelude.{[]};
ghost use Rattle.ftp_ports.specs.Machine.{held};
ghost use Rattle.ftp_driver.specs.Calling.{IsLater};
ghost use Rattle.ftp_driver.specs.Standing.{channel_at};
ghost use Rattle.ftp_server_driver.specs.alone.Side.{beside, timed};
ghost use Rattle.ftp_server_model.specs.Standing.{standing_of, still_stands};
ghost use Rattle.laws_server.specs.several.Several.{exchanged};
ghost use Rattle.ftp_server_driver.specs.shared.Lending.{holding};
ghost use Rattle.ftp_server_driver.specs.shared.Turning.{TakesTurn};

use crate::alone::{Clocked, Watches, drive_some};
use ftp_driver::{Data, Turned};
use ftp_ports::{Cause, Control, Ports, Watch};
use ftp_server_model::Standing;
use ftp_tree::Tree;
use laws_server::Lends;
use std::alloc::Allocator;
use std::io::{Read, Write};

/// Serves a control connection for some turns with a tree that is lent: until the server is done with it, until the next turn would wait, or `most` turns.
/// None of them waits where `ports` looks rightly, so that others are served meanwhile. After them the tree has what they made of it, and the server has its
/// own tree again. The next call, with the same server, connections and `data`, goes on where this one ended; before the first one no data connection stands.
/// `stood` is what stood in the tree at the path of an upload when the call before gave the tree back, and none before the first one: where something else
/// stands there now, others changed that, and the upload is overtaken.
///
/// Once it is over, and where it breaks off, all is as `drive_server` leaves it: the server is told that the control connection ended where it broke off,
/// and the data connection and the port are closed.
pub fn lent_turns<A, T, F, R, W, P, C, O>(
    clocked: &mut Clocked<F, C, O>,
    control: &mut Control<R, W>,
    ports: &mut P,
    data: &mut Data<P::Stream>,
    tree: &mut T,
    stood: &mut Option<Standing>,
    most: u64,
) -> Result<Turned<()>, Cause>
where
    A: Allocator + Copy,
    T: Tree<A>,
    F: Lends<A, T>,
    R: Read + Drop,
    W: Write + Drop,
    P: Ports,
    C: Watch,
    O: Watches<F>,
    // Witness of turn: `edits/turns_are_made_with_a_tree_of_its_own`, `a_tree_that_was_lent_is_kept`, `what_others_changed_is_not_asked`,
    // `what_stands_is_told_as_unknown`, `what_stood_before_is_told_on`, `what_stands_is_compared_with_itself`; `turns_are_one_drive`.
    ensures turn { TakesTurn (record { most = most; lent = holding (T.table tree.old) (T.failures tree.old); stood = stood.old; stays = still_stands stood.old (standing_of (exchanged (T.table tree.old) (F.Far.server clocked.old.server).view).session); left = holding (T.table tree.new) (T.failures tree.new); stands = stood.new; failed = control.new.failed; went = result }) (beside R.remaining W.contents (held (timed F.Far.server C.told clocked.old) (channel_at P.Stream.remaining P.Stream.contents (P.history ports.old) data.old [])) control.old) (beside R.remaining W.contents (held (timed F.Far.server C.told clocked.new) (channel_at P.Stream.remaining P.Stream.contents (P.history ports.new) data.new [])) control.new) }
    // Witness of later: as of `drive_some` of `ftp_server_driver`.
    ensures later { IsLater (P.waits ports.new) result }
{
    clocked.server.lend(tree, *stood);
    let turned = drive_some::<A, T, F, R, W, P, C, O>(clocked, control, ports, data, most);
    *stood = clocked.server.give_back(tree);
    turned
}
