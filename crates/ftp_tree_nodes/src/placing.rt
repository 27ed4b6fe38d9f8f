// What changes the map: a place for what comes is made while memory may still be refused, and what is put into it then takes none.
ghost use Rattle.std.specs.Prelude.{◌≡◌, ◌<◌, ◌+◌, ◌^◌, ◌⊎◌, ◌↔◌, [], None, Some, IsTrue, OnErr, OnOk, length, true};
ghost use Rattle.std.specs.FinMap as fin;
ghost use Rattle.ftp_path.specs.Path.{parent};
ghost use Rattle.ftp_tree.specs.Map.{Dir};
ghost use Rattle.ftp_tree.specs.Tree.{freed, installed, made, moved, node_at, octets_in, removed, under, with_part};
ghost use Rattle.ftp_tree.specs.Tree.{delete_refusal, onto_refusal, remove_refusal, rename_refusal};

use crate::holder::Holder;
use crate::node::Node;
use crate::nodes::Nodes;
use crate::place::Joined;
use ftp_facts::Moment;
use ftp_path::Path;
use std::alloc::{AllocError, Allocator};

impl<A: Allocator + Copy, C: Holder> Nodes<A, C> {
    /// Puts an empty directory where nothing stands, in a directory: one that is made, or the place of what is to come.
    pub fn make_place<B: Allocator + Copy, D: Allocator + Copy>(
        &mut self,
        root: &Path<B>,
        path: &Path<D>,
    ) -> Result<(), AllocError>
        requires absent { node_at (under self.old root.now) path.now ≡ None }
        requires above { node_at (under self.old root.now) (parent path.now) ≡ Some Dir }
        ensures ok { OnOk result (self.new ≡ with_part self.old root.now (made (under self.old root.now) path.now)) }
        ensures loose { OnOk result (remove_refusal (under self.new root.now) path.now ≡ None) }
        ensures err { OnErr result (self.new ≡ self.old) }
    {
        let place = Joined::of(root, path);
        let node = Node::dir(self.alloc);
        let Ok(_) = self.root.put(self.alloc, place.key(), node) else {
            return Err(AllocError);
        };
        Ok(())
    }

    /// Whether the counts of all nodes and of all octets can count one file more, of so many octets.
    #[tactic(auto, unfolding(ftp_tree::specs::Tree::octets_in))]
    pub fn can_count(&self, octets: u64) -> bool
        // Witness: an equivalence.
        ensures { IsTrue result ↔ (fin.len self.now.map + 1 < 2 ^ 64) × (octets_in self.now + octets < 2 ^ 128) }
    {
        let all = self.root.count();
        all.nodes < u64::MAX && all.octets <= u128::MAX - octets as u128
    }

    /// Puts a file in the place of a file or of an empty directory. Takes no memory.
    pub fn put_over<B: Allocator + Copy, D: Allocator + Copy>(
        &mut self,
        root: &Path<B>,
        path: &Path<D>,
        content: C,
        moment: Moment,
    )
        requires loose { let part = under self.old root.now in (delete_refusal part path.now ≡ None) ⊎ (remove_refusal part path.now ≡ None) }
        requires nodes { fin.len self.old.map + 1 < 2 ^ 64 }
        requires octets { octets_in self.old + length (C.octets content) < 2 ^ 128 }
        // Witness: equations of the map.
        ensures { self.new ≡ with_part self.old root.now (installed (under self.old root.now) path.now (C.octets content) moment.seconds) }
    {
        let node = Node::file(content, moment);
        let place = Joined::of(root, path);
        self.root.put(self.alloc, place.key(), node).unwrap();
    }

    /// Moves what stands at a path into the place of a file or of an empty directory, where no refusal applies without that. Takes no memory.
    pub fn move_over<B: Allocator + Copy, D: Allocator + Copy, E: Allocator + Copy>(
        &mut self,
        root: &Path<B>,
        from: &Path<D>,
        to: &Path<E>,
    )
        requires loose { let part = under self.old root.now in (delete_refusal part to.now ≡ None) ⊎ (remove_refusal part to.now ≡ None) }
        requires free { rename_refusal (removed (under self.old root.now) to.now) from.now to.now ≡ None }
        // Witness: equations of the map.
        ensures { self.new ≡ with_part self.old root.now (moved (removed (under self.old root.now) to.now) from.now to.now) }
    {
        let old = Joined::of(root, from);
        let new = Joined::of(root, to);
        // What is taken out is part of this count, so it fits again where it is put.
        let _all = self.root.count();
        let node = self.root.take_out(old.key()).unwrap();
        self.root.put(self.alloc, new.key(), node).unwrap();
    }

    /// Moves what stands at a path, with all below it, where no refusal applies: all memory is had first.
    pub fn move_all<B: Allocator + Copy, D: Allocator + Copy, E: Allocator + Copy>(
        &mut self,
        root: &Path<B>,
        from: &Path<D>,
        to: &Path<E>,
    ) -> Result<(), AllocError>
        requires { rename_refusal (under self.old root.now) from.now to.now ≡ None }
        ensures ok { OnOk result (self.new ≡ with_part self.old root.now (moved (under self.old root.now) from.now to.now)) }
        ensures err { OnErr result (self.new ≡ self.old) }
    {
        self.make_place(root, to)?;
        self.move_over(root, from, to);
        Ok(())
    }

    /// Moves a file into the place of another, where no refusal applies. Takes no memory.
    pub fn move_onto<B: Allocator + Copy, D: Allocator + Copy, E: Allocator + Copy>(
        &mut self,
        root: &Path<B>,
        from: &Path<D>,
        to: &Path<E>,
    )
        requires { onto_refusal (under self.old root.now) from.now to.now ≡ None }
        // Witness: equations of the map.
        ensures { let part = under self.old root.now in self.new ≡ with_part self.old root.now (moved (freed true part from.now to.now) from.now to.now) }
    {
        // Both are read for what is known of them: the map is a tree, and the path is within the limits of a path.
        let _all = self.root.count();
        let _key = to.key();
        self.move_over(root, from, to);
    }

    /// Takes away what stands at a path, where no refusal applies to a file or to a directory there. Takes no memory.
    pub fn take_away<B: Allocator + Copy, D: Allocator + Copy>(
        &mut self,
        root: &Path<B>,
        path: &Path<D>,
    )
        requires { let part = under self.old root.now in (delete_refusal part path.now ≡ None) ⊎ (remove_refusal part path.now ≡ None) }
        // Witness: equations of the map.
        ensures { self.new ≡ with_part self.old root.now (removed (under self.old root.now) path.now) }
    {
        let place = Joined::of(root, path);
        let _gone = self.root.take_out(place.key());
    }
}
