// What a world does for its ends after each event: a wanted close is done, a wanted listen gets its port, and an end that leaves has left.
ghost use Rattle.std.specs.Prelude.{◌≡◌};
ghost use Rattle.laws_world.specs.Serving.{near_served, near_closes, near_listens, left_by_near, far_served, far_closes, far_listens, left_by_far, served};
ghost use Rattle.laws_world.specs.World.{gone, next_listen, parted, port_at};
ghost use Rattle.ftp_pair_events.specs.events.Calm.{Counted};
ghost use Rattle.ftp_pair_events.specs.events.Shown.{shown, Calmly, HasRoom};

use crate::events::counts::{both_stay, stays};
use crate::events::parts::Parts;
use crate::queues::{Control, Link};
use ftp_client_model::Near;
use ftp_ends::Wants;
use ftp_server_model::SureFar;
use ftp_tree::Tree;
use std::alloc::Allocator;

/// The first port that is listened at (own choice).
const FIRST_PORT: u16 = 49152;

/// How many ports there are (own choice).
const PORTS: u16 = 16384;

/// The port of the next listen, where so many came before.
fn port_of(listens: u16) -> u16
    ensures { result ≡ port_at listens }
{
    FIRST_PORT + listens % PORTS
}

/// How many listens there are after one more, counted as ports are.
#[tactic(auto, using(crate::proofs::events::Ports::next_is))]
fn next_of(listens: u16) -> u16
    ensures { result ≡ next_listen listens }
{
    (listens % PORTS + 1) % PORTS
}

impl<A: Allocator + Copy, T: Tree<A>, N: Near<A>, F: SureFar<A, T>> Parts<A, T, N, F> {
    pub(crate) fn serve_near(&mut self)
        ensures moved { Calmly self.old self.new (shown N.client F.server self.new ≡ near_served (shown N.client F.server self.old)) }
        ensures report { HasRoom N.client self.old → HasRoom N.client self.new }
        ensures counted { Counted 3 N.client F.server self.old self.new }
    {
        match self.near.wants() {
            Wants::CloseData => self.near_closes(),
            Wants::Listen => self.near_listens(),
            Wants::CloseAll => self.near_leaves(),
            _ => {}
        }
    }

    #[tactic(auto, using(crate::proofs::events::Busy::data_closed_busy))]
    fn near_closes(&mut self)
        ensures moved { Calmly self.old self.new (shown N.client F.server self.new ≡ near_closes (shown N.client F.server self.old)) }
        ensures report { HasRoom N.client self.old → HasRoom N.client self.new }
        ensures counted { Counted 3 N.client F.server self.old self.new }
    {
        self.near.data_closed();
        match self.link {
            Link::Opened => self.link = Link::ClosedByNear,
            Link::ClosedByFar => self.lose_link(),
            _ => {}
        }
    }

    #[tactic(auto, using(crate::proofs::events::Busy::listening_busy, crate::proofs::events::Busy::listening_moves))]
    fn near_listens(&mut self)
        ensures moved { Calmly self.old self.new (shown N.client F.server self.new ≡ near_listens (shown N.client F.server self.old)) }
        ensures report { HasRoom N.client self.old → HasRoom N.client self.new }
        ensures counted { Counted 3 N.client F.server self.old self.new }
    {
        let refusals = self.near.refusals();
        self.near.listening(port_of(self.listens));
        self.listens = next_of(self.listens);
        self.calm = stays(self.calm, refusals, self.near.refusals());
    }

    fn near_leaves(&mut self)
        ensures moved { Calmly self.old self.new (shown N.client F.server self.new ≡ left_by_near (shown N.client F.server self.old).control (shown N.client F.server self.old)) }
        ensures report { HasRoom N.client self.old → HasRoom N.client self.new }
        ensures counted { Counted 3 N.client F.server self.old self.new }
    {
        match self.control {
            Control::Stands => self.control = Control::LeftByNear,
            Control::LeftByFar => self.part(),
            _ => {}
        }
    }

    pub(crate) fn lose_link(&mut self)
        ensures moved { shown N.client F.server self.new ≡ gone (shown N.client F.server self.old) }
        ensures calm { self.new.calm ≡ self.old.calm }
        ensures report { HasRoom N.client self.old → HasRoom N.client self.new }
        ensures counted { Counted 0 N.client F.server self.old self.new }
    {
        self.link = Link::Gone;
        self.data_to_server.clear();
        self.data_to_client.clear();
    }

    pub(crate) fn part(&mut self)
        ensures moved { shown N.client F.server self.new ≡ parted (shown N.client F.server self.old) }
        ensures calm { self.new.calm ≡ self.old.calm }
        ensures report { HasRoom N.client self.old → HasRoom N.client self.new }
        ensures counted { Counted 0 N.client F.server self.old self.new }
    {
        self.control = Control::Parted;
        self.control_to_server.clear();
        self.control_to_client.clear();
    }

    pub(crate) fn serve_far(&mut self)
        ensures moved { Calmly self.old self.new (shown N.client F.server self.new ≡ far_served (shown N.client F.server self.old)) }
        ensures report { HasRoom N.client self.old → HasRoom N.client self.new }
        ensures counted { Counted 3 N.client F.server self.old self.new }
    {
        match self.far.wants() {
            Wants::CloseData => self.far_closes(),
            Wants::Listen => self.far_listens(),
            Wants::CloseAll => self.far_leaves(),
            _ => {}
        }
    }

    #[tactic(auto, unfolding(ftp_server_model::specs::Calls::data_closed))]
    fn far_closes(&mut self)
        ensures moved { Calmly self.old self.new (shown N.client F.server self.new ≡ far_closes (shown N.client F.server self.old)) }
        ensures report { HasRoom N.client self.old → HasRoom N.client self.new }
        ensures counted { Counted 3 N.client F.server self.old self.new }
    {
        let counts = self.far_counts();
        self.far.data_closed();
        self.calm = both_stay(self.calm, counts, self.far_counts());
        match self.link {
            Link::Opened => self.link = Link::ClosedByFar,
            Link::ClosedByNear => self.lose_link(),
            _ => {}
        }
    }

    #[tactic(auto, unfolding(ftp_server_model::specs::Calls::listening))]
    fn far_listens(&mut self)
        ensures moved { Calmly self.old self.new (shown N.client F.server self.new ≡ far_listens (shown N.client F.server self.old)) }
        ensures report { HasRoom N.client self.old → HasRoom N.client self.new }
        ensures counted { Counted 3 N.client F.server self.old self.new }
    {
        let counts = self.far_counts();
        self.far.listening(port_of(self.listens));
        self.listens = next_of(self.listens);
        self.calm = both_stay(self.calm, counts, self.far_counts());
    }

    fn far_leaves(&mut self)
        ensures moved { Calmly self.old self.new (shown N.client F.server self.new ≡ left_by_far (shown N.client F.server self.old).control (shown N.client F.server self.old)) }
        ensures report { HasRoom N.client self.old → HasRoom N.client self.new }
        ensures counted { Counted 3 N.client F.server self.old self.new }
    {
        match self.control {
            Control::Stands => self.control = Control::LeftByFar,
            Control::LeftByNear => self.part(),
            _ => {}
        }
    }

    /// A close, then a port, then leaving, of each end.
    pub(crate) fn serve(&mut self)
        ensures moved { Calmly self.old self.new (shown N.client F.server self.new ≡ served (shown N.client F.server self.old)) }
        ensures report { HasRoom N.client self.old → HasRoom N.client self.new }
        ensures counted { Counted 18 N.client F.server self.old self.new }
    {
        self.serve_near();
        self.serve_near();
        self.serve_near();
        self.serve_far();
        self.serve_far();
        self.serve_far();
    }
}
