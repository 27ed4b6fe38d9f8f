// What stands at the path of an upload.
ghost use Rattle.std.specs.Prelude.{◌≡◌};
ghost use Rattle.std.specs.Option.{option_map};
ghost use Rattle.ftp_path.specs.Path.{Names};
ghost use Rattle.ftp_server_model.specs.Standing.{standing_at};
ghost use Rattle.ftp_tree.specs.Tree.{Table, kind_at, size_at, stamp_at, under};

use ftp_facts::Moment;
use ftp_path::Path;
use ftp_server_model::Standing;
use ftp_tree::{NodeKind, Tree};
use std::alloc::Allocator;

/// What stands at a path.
pub(crate) fn standing_at<A: Allocator + Copy, T: Tree<A>>(
    tree: &T,
    root: &Path<A>,
    path: &Path<A>,
) -> Standing
    ensures { result ≡ standing_at (under (T.table tree.now) root.now) path.now }
{
    standing_by(
        tree.kind(root, path),
        tree.size(root, path),
        tree.stamp(root, path),
    )
}

/// The same by what a tree tells of it.
#[tactic(auto, using(crate::proofs::StandingLemmas::stands_none, crate::proofs::StandingLemmas::stands_dir, crate::proofs::StandingLemmas::stands_file, crate::proofs::StandingLemmas::no_size, crate::proofs::StandingLemmas::no_stamp))]
fn standing_by(kind: Option<NodeKind>, size: Option<u64>, stamp: Option<Moment>) -> Standing
    ensures { (table : Table) (path : Names) → kind ≡ kind_at table path → size ≡ size_at table path → option_map (λ moment. moment.seconds) stamp ≡ stamp_at table path
        → result ≡ standing_at table path }
{
    match kind {
        None => Standing::Nothing,
        Some(NodeKind::Dir) => Standing::Dir,
        Some(NodeKind::File) => match size {
            None => Standing::Nothing,
            Some(size) => match stamp {
                None => Standing::Nothing,
                Some(stamp) => Standing::File {
                    size,
                    moment: stamp.seconds,
                },
            },
        },
    }
}
