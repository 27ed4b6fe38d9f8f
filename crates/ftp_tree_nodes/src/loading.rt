// Changes that answer by themselves whether they are done, for who builds a tree of what was found elsewhere.
ghost use Rattle.std.specs.Prelude.{◌≡◌, None, IfErr, OnErr, OnOk, length, unwrap_or};
ghost use Rattle.ftp_tree.specs.Tree.{install_refusal, installed, made, make_refusal, under, with_part};
ghost use Rattle.ftp_tree_nodes.specs.Store.{cut_at};

use crate::holder::Holder;
use crate::node::Node;
use crate::nodes::Nodes;
use crate::place::Joined;
use ftp_facts::Moment;
use ftp_path::Path;
use ftp_tree::TreeFault;
use std::alloc::Allocator;

impl<A: Allocator + Copy, C: Holder> Nodes<A, C> {
    /// Makes a directory.
    ///
    /// Refused: as `make_refusal` says, then `Memory`.
    pub fn make_dir<B: Allocator + Copy, D: Allocator + Copy>(
        &mut self,
        root: &Path<B>,
        path: &Path<D>,
    ) -> Result<(), TreeFault>
        // Witness: equations of the map and of the fault.
        ensures free { OnOk result (make_refusal (under self.old root.now) path.now ≡ None) }
        ensures done { OnOk result (self.new ≡ with_part self.old root.now (made (under self.old root.now) path.now)) }
        ensures refused { IfErr result (λ fault. fault ≡ unwrap_or (make_refusal (under self.old root.now) path.now) TreeFault.Memory) }
        ensures same { OnErr result (self.new ≡ self.old) }
    {
        if let Some(fault) = self.make_refusal(root, path) {
            return Err(fault);
        }
        match self.make_place(root, path) {
            Ok(()) => Ok(()),
            Err(_) => Err(TreeFault::Memory),
        }
    }

    /// Puts a file at a path, in the place of one that stands there. Refused, what holds its octets is let go.
    ///
    /// Refused: as `install_refusal` says, then `Memory`.
    pub fn install<B: Allocator + Copy, D: Allocator + Copy>(
        &mut self,
        root: &Path<B>,
        path: &Path<D>,
        content: C,
        moment: Moment,
    ) -> Result<(), TreeFault>
        // Witness: equations of the map and of the fault.
        ensures free { OnOk result (install_refusal (under self.old root.now) path.now (length (C.octets content)) ≡ None) }
        ensures done { OnOk result (self.new ≡ with_part self.old root.now (installed (under self.old root.now) path.now (C.octets content) moment.seconds)) }
        ensures refused { IfErr result (λ fault. let part = under self.old root.now in
            fault ≡ unwrap_or (install_refusal part path.now (length (C.octets content))) TreeFault.Memory) }
        ensures same { OnErr result (self.new ≡ self.old) }
    {
        if let Some(fault) = self.install_refusal(root, path, content.len()) {
            return Err(fault);
        }
        match self.put_file(root, path, content, moment) {
            Ok(()) => Ok(()),
            Err(_) => Err(TreeFault::Memory),
        }
    }

    /// Puts a file where no refusal applies, or hands back what holds its octets, where memory is refused.
    pub fn put_file<B: Allocator + Copy, D: Allocator + Copy>(
        &mut self,
        root: &Path<B>,
        path: &Path<D>,
        content: C,
        moment: Moment,
    ) -> Result<(), C>
        requires { install_refusal (under self.old root.now) path.now (length (C.octets content)) ≡ None }
        // Witness: equations; what is handed back has the octets that came.
        ensures done { OnOk result (self.new ≡ with_part self.old root.now (installed (under self.old root.now) path.now (C.octets content) moment.seconds)) }
        ensures same { OnErr result (self.new ≡ self.old) }
        ensures back { IfErr result (λ back. C.octets back ≡ C.octets content) }
    {
        let node = Node::file(content, moment);
        let place = Joined::of(root, path);
        let Err(node) = self.root.put(self.alloc, place.key(), node) else {
            return Ok(());
        };
        Err(node.into_content().unwrap())
    }

    /// Takes away what stands at a path, with all below it; a root stays. Takes no memory.
    pub fn cut<B: Allocator + Copy, D: Allocator + Copy>(&mut self, root: &Path<B>, path: &Path<D>)
        // Witness: equations of the map.
        ensures { self.new ≡ cut_at self.old root.now path.now }
    {
        if path.key().is_empty() {
            return;
        }
        let place = Joined::of(root, path);
        let _gone = self.root.take_out(place.key());
    }
}
