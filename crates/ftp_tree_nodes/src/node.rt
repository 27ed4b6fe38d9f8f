// What stands somewhere, with all that stands below it.
ghost use Rattle.std.specs.Prelude.{◌≡◌, ◌≤◌, ◌<◌, ◌+◌, ◌-◌, ◌^◌, ◌∷◌, [], ℕ, List, Some, IsTrue, IsOk, IsSome, IfSome, IfOk, IfErr, OnOk, OnErr, length, map};
ghost use Rattle.std.specs.FinMap as fin;
ghost use Rattle.std.specs.FinMap.{is_sorted};
ghost use Rattle.std.specs.FinMap.Entries.{find as looked_up, put as placed};
ghost use Rattle.std.specs.List.{list_all, remove, slice_get};
ghost use Rattle.std.specs.Option.{option_map};
ghost use Rattle.ftp_path.specs.Kept.{names_of};
ghost use Rattle.ftp_path.specs.Path.{is_name};
ghost use Rattle.ftp_tree_nodes.specs.Branch.{HasGap, NameStandsAt, file_alone, found, name_cmp, parts};
ghost use Rattle.ftp_tree.specs.Text.{is_within_room};
ghost use Rattle.ftp_tree.specs.Entries.{shown_file};
ghost use Rattle.ftp_tree_nodes.specs.Store.{shown_part};
ghost use Rattle.ftp_tree.specs.Text.{IsPlace};
ghost use Rattle.ftp_tree_nodes.specs.Store.{standing_node};
ghost use Rattle.ftp_tree.specs.Map.{children, entries_at, node_at, octets_in, of_node, root_alone, shown_of, under, with_part};

use crate::holder::Holder;
use crate::place::first_name;
use ftp_facts::Moment;
use ftp_path::Name;
use ftp_tree::{DirEntries, FileFacts, Label};
use std::alloc::{AllocError, Allocator};
use std::cmp::Ordering;
use std::marker::Model;

/// How many nodes, and how many octets of files.
#[derive(Clone, Copy)]
pub struct Count {
    pub nodes: u64,
    pub octets: u128,
}

/// What stands at a path, lent.
#[derive(Drop)]
pub enum Standing<'a, C: Holder> {
    Dir,
    File(&'a C, Moment),
}

/// What stands somewhere, with all that stands below it.
#[cycle(node)]
#[derive(Drop)]
pub(crate) struct Node<A: Allocator + Copy, C: Holder> {
    kept: Branch<A, C>,
}

/// A node as it is kept.
#[cycle(node)]
#[derive(Drop)]
enum Branch<A: Allocator + Copy, C: Holder> {
    File {
        content: C,
        moment: Moment,
    },
    Dir {
        children: Vec<Box<Child<A, C>, A>, A>,
        count: Count,
    },
}

/// A name in a directory, and what stands there.
#[cycle(node)]
#[derive(Drop)]
struct Child<A: Allocator + Copy, C: Holder> {
    name: Label<A>,
    node: Node<A, C>,
}

impl<A: Allocator + Copy, C: Holder> Model for Node<A, C> {
    ghost use Rattle.ftp_tree.specs.Map.{Map};
    ghost use Rattle.ftp_tree.specs.Rows.{map_code};
    ghost use Rattle.std.specs.FinMap as fin;

    ghost Value = { Map };

    ghost coded = { map_code };

    ghost use Rattle.ftp_tree_nodes.specs.Branch.{IsBranch, branch_table};

    ghost view = { λ node. branch_table C.octets node.kept };

    ghost invariant = { λ node. IsBranch node.kept };

    ghost size = { fin.len };

    ghost use Rattle.ftp_tree_nodes.specs.BranchFalls.{falls};

    ghost size_decreases = { λ node h. falls A C A.Allocator C.Holder C.octets node.kept h };
}

impl<A: Allocator + Copy, C: Holder> Node<A, C> {
    /// An empty directory. Takes no memory.
    pub(crate) fn dir(alloc: A) -> Node<A, C>
        ensures { result ≡ root_alone }
    {
        Node {
            kept: Branch::Dir {
                children: Vec::new(alloc),
                count: Count {
                    nodes: 1,
                    octets: 0,
                },
            },
        }
    }

    /// A file.
    pub(crate) fn file(content: C, moment: Moment) -> Node<A, C>
        ensures { result ≡ file_alone (C.octets content) moment.seconds }
    {
        Node {
            kept: Branch::File { content, moment },
        }
    }

    /// What holds the octets of a file; of a directory nothing does.
    pub(crate) fn into_content(self) -> Option<C>
        ensures { (octets : List ℕ) (moment : ℕ) → self ≡ file_alone octets moment → option_map C.octets result ≡ Some octets }
    {
        match self.kept {
            Branch::File { content, .. } => Some(content),
            Branch::Dir { .. } => None,
        }
    }

    /// How many nodes stand here and below, and how many octets their files have.
    pub(crate) fn count(&self) -> Count
        ensures nodes { result.nodes ≡ fin.len self.now }
        ensures octets { result.octets ≡ octets_in self.now }
    {
        match &self.kept {
            Branch::File { content, .. } => Count {
                nodes: 1,
                octets: content.len() as u128,
            },
            Branch::Dir { count, .. } => *count,
        }
    }

    /// What stands here.
    pub(crate) fn standing(&self) -> Standing<'_, C>
        ensures { Some (standing_node C.octets result) ≡ node_at self.now [] }
    {
        match &self.kept {
            Branch::File { content, moment } => Standing::File(content, *moment),
            Branch::Dir { .. } => Standing::Dir,
        }
    }

    /// What stands at a path below, as it is lent.
    pub(crate) fn at(&self, key: &[u8]) -> Option<Standing<'_, C>>
        requires { IsPlace key.now }
        ensures { option_map (standing_node C.octets) result ≡ node_at self.now (names_of key.now) }
    {
        let Some(node) = self.find(key) else {
            return None;
        };
        Some(node.standing())
    }

    /// The part at a path below.
    pub(crate) fn find(&self, key: &[u8]) -> Option<&Node<A, C>>
        requires { IsPlace key.now }
        ensures { found (option_map (λ node. node.now) result) ≡ under self.now (names_of key.now) }
    {
        let mut here = self;
        let mut left = key;
        while !left.is_empty() {
            let (name, rest) = first_name(left);
            let Some(child) = here.child(name) else {
                return None;
            };
            here = child;
            left = rest;
        }
        Some(here)
    }

    /// The name that comes at a place among those directly here.
    pub(crate) fn nth_name(&self, place: usize) -> Option<Name<'_>>
        ensures { option_map (λ name. name.octets.now) result ≡ slice_get (children self.now []) place }
    {
        match &self.kept {
            Branch::File { .. } => None,
            Branch::Dir { children, .. } => name_at(children.as_slice(), place),
        }
    }

    /// What a directory here shows, as it is now; memory for all of it is had at once. A file shows nothing.
    pub(crate) fn entries(&self, alloc: A) -> Result<DirEntries<A>, AllocError>
        // Witness: an equation of what it gives; that it gives anything is tested.
        ensures { IfOk result (λ entries. entries ≡ entries_at self.now []) }
    {
        match &self.kept {
            Branch::File { .. } => Ok(DirEntries::none(alloc)),
            Branch::Dir { children, .. } => entries_of(alloc, children.as_slice()),
        }
    }

    /// What a directory shows of what stands here.
    fn shown(&self) -> Option<FileFacts>
        ensures { shown_file result ≡ of_node shown_of (node_at self.now []) }
    {
        match self.standing() {
            Standing::File(content, moment) => Some(FileFacts {
                size: content.len(),
                moment,
            }),
            Standing::Dir => None,
        }
    }

    /// Whether each path from here on, its names joined, has so many octets at most.
    pub(crate) fn fits(&self, room: usize) -> bool
        ensures { result ≡ list_all (is_within_room room) (fin.keys self.now) }
    {
        let Branch::Dir { children, .. } = &self.kept else {
            return true;
        };
        for child in children {
            if child.name.len() >= room || !child.node.fits(room - child.name.len() - 1) {
                return false;
            }
        }
        true
    }

    /// Puts a node at a path below, in the place of what stands there, and says how much that was. Refused memory, or a count
    /// past its type, it hands the node back.
    pub(crate) fn put(
        &mut self,
        alloc: A,
        key: &[u8],
        node: Node<A, C>,
    ) -> Result<Count, Node<A, C>>
    where
        A: Copy,
        requires place { IsPlace key.now }
        requires stands { IsSome (node_at node []) }
        ensures ok { OnOk result (self.new ≡ with_part self.old (names_of key.now) node) }
        ensures counted { IfOk result (λ gone. (fin.len self.new + gone.nodes ≡ fin.len self.old + fin.len node) × (octets_in self.new + gone.octets ≡ octets_in self.old + octets_in node)) }
        ensures err { OnErr result (self.new ≡ self.old) }
        ensures back { IfErr result (λ back. back ≡ node) }
        ensures fits { IsSome (node_at self.old (names_of key.now)) → fin.len self.old + fin.len node < 2 ^ 64 → octets_in self.old + octets_in node < 2 ^ 128 → IsOk result }
    {
        if key.is_empty() {
            let gone = self.count();
            *self = node;
            return Ok(gone);
        }
        let Branch::Dir { children, count } = &mut self.kept else {
            return Err(node);
        };
        let Some(sum) = count.and(node.count()) else {
            return Err(node);
        };
        let (name, rest) = first_name(key);
        let at = match search(children.as_slice(), name) {
            Ok(at) => at,
            Err(at) => {
                if let Err(node) = put_new(children, alloc, at, name, rest, node) {
                    return Err(node);
                }
                *count = sum;
                return Ok(Count::NONE);
            }
        };
        let gone = match children[at].node.put(alloc, rest, node) {
            Ok(gone) => gone,
            Err(node) => return Err(node),
        };
        *count = sum.without(gone);
        Ok(gone)
    }

    /// Takes a node out from a path below, if one stands there.
    pub(crate) fn take_out(&mut self, key: &[u8]) -> Option<Node<A, C>>
        requires place { IsPlace key.now }
        requires some { 0 < length key.now }
        ensures taken { found result ≡ under self.old (names_of key.now) }
        ensures left { self.new ≡ with_part self.old (names_of key.now) fin.empty }
        ensures counted { (fin.len self.new + fin.len (found result) ≡ fin.len self.old) × (octets_in self.new + octets_in (found result) ≡ octets_in self.old) }
    {
        let Branch::Dir { children, count } = &mut self.kept else {
            return None;
        };
        let (name, rest) = first_name(key);
        let Ok(at) = search(children.as_slice(), name) else {
            return None;
        };
        if rest.is_empty() {
            let node = remove_child(children, at);
            *count = count.without(node.count());
            return Some(node);
        }
        let Some(node) = children[at].node.take_out(rest) else {
            return None;
        };
        *count = count.without(node.count());
        Some(node)
    }

    /// What stands directly here by a name.
    fn child(&self, name: &[u8]) -> Option<&Node<A, C>>
        ensures { found (option_map (λ node. node.now) result) ≡ under self.now (name.now ∷ []) }
    {
        match &self.kept {
            Branch::File { .. } => None,
            Branch::Dir { children, .. } => child_of(children.as_slice(), name),
        }
    }
}

impl Count {
    /// Nothing at all.
    pub(crate) const NONE: Count = Count {
        nodes: 0,
        octets: 0,
    };

    /// Both together, unless that is past their types.
    fn and(self, more: Count) -> Option<Count>
        ensures some { IfSome result (λ sum. (sum.nodes ≡ self.nodes + more.nodes) × (sum.octets ≡ self.octets + more.octets)) }
        ensures fits { self.nodes + more.nodes < 2 ^ 64 → self.octets + more.octets < 2 ^ 128 → IsSome result }
    {
        let nodes = self.nodes.checked_add(more.nodes)?;
        let octets = self.octets.checked_add(more.octets)?;
        Some(Count { nodes, octets })
    }

    /// What is left without a part of it.
    fn without(self, less: Count) -> Count
        requires nodes { less.nodes ≤ self.nodes }
        requires octets { less.octets ≤ self.octets }
        ensures nodes { result.nodes ≡ self.nodes - less.nodes }
        ensures octets { result.octets ≡ self.octets - less.octets }
    {
        Count {
            nodes: self.nodes - less.nodes,
            octets: self.octets - less.octets,
        }
    }
}

/// Puts a node by a new name, where no names are left after it. Refused memory, it hands the node back.
fn put_new<A: Allocator + Copy, C: Holder>(
    children: &mut Vec<Box<Child<A, C>, A>, A>,
    alloc: A,
    at: usize,
    name: &[u8],
    rest: &[u8],
    node: Node<A, C>,
) -> Result<(), Node<A, C>>
    requires gap { HasGap (parts children.old.items) name.now at }
    requires within { at ≤ length children.old.items }
    ensures ok { OnOk result ((parts children.new.items ≡ placed name_cmp name.now node (parts children.old.items)) × (length rest.now ≡ 0)) }
    ensures err { OnErr result (parts children.new.items ≡ parts children.old.items) }
    ensures back { IfErr result (λ back. back ≡ node) }
{
    if !rest.is_empty() {
        return Err(node);
    }
    let Ok(name) = Label::new(alloc, name) else {
        return Err(node);
    };
    let child = match Box::new(alloc, Child { name, node }) {
        Ok(child) => child,
        Err(failed) => return Err(failed.value.node),
    };
    match children.insert(at, child) {
        Ok(()) => Ok(()),
        Err(failed) => Err(Box::into_inner(failed.value).node),
    }
}

/// Takes a child out of its place.
fn remove_child<A: Allocator + Copy, C: Holder>(
    children: &mut Vec<Box<Child<A, C>, A>, A>,
    at: usize,
) -> Node<A, C>
    requires within { at < length children.old.items }
    ensures node { (name : List ℕ) → NameStandsAt (parts children.old.items) name at → Some result ≡ looked_up name_cmp name (parts children.old.items) }
    ensures left { children.new.items ≡ remove children.old.items at }
{
    Box::into_inner(children.remove(at)).node
}

/// The name of a child.
fn name_at<A: Allocator + Copy, C: Holder>(
    children: &[Box<Child<A, C>, A>],
    place: usize,
) -> Option<Name<'_>>
    requires { IsTrue (list_all (λ part. is_name part.0) (parts children.now)) }
    ensures { option_map (λ name. name.octets.now) result ≡ slice_get (map (λ part. part.0) (parts children.now)) place }
{
    if place >= children.len() {
        return None;
    }
    Name::new(children[place].name.as_slice())
}

/// What a directory of some children shows.
fn entries_of<A: Allocator + Copy, C: Holder>(
    alloc: A,
    children: &[Box<Child<A, C>, A>],
) -> Result<DirEntries<A>, AllocError>
    requires { IsTrue (list_all (λ part. is_name part.0) (parts children.now)) }
    ensures { IfOk result (λ entries. entries ≡ map shown_part (parts children.now)) }
{
    let mut entries = DirEntries::with_capacity(alloc, children.len())?;
    for child in children {
        entries.push(child.name.share()?, child.node.shown())?;
    }
    Ok(entries)
}

/// What stands by a name among children.
fn child_of<'a, A: Allocator + Copy, C: Holder>(
    children: &'a [Box<Child<A, C>, A>],
    name: &[u8],
) -> Option<&'a Node<A, C>>
    requires { IsTrue (is_sorted name_cmp (parts children.now)) }
    ensures { option_map (λ node. node.now) result ≡ looked_up name_cmp name.now (parts children.now) }
{
    let Ok(at) = search(children, name) else {
        return None;
    };
    Some(&children[at].node)
}

/// Where a name stands among children, or else where it would go.
fn search<A: Allocator + Copy, C: Holder>(
    children: &[Box<Child<A, C>, A>],
    name: &[u8],
) -> Result<usize, usize>
    requires { IsTrue (is_sorted name_cmp (parts children.now)) }
    ensures there { IfOk result (λ at. NameStandsAt (parts children.now) name.now at) }
    ensures gap { IfErr result (λ at. HasGap (parts children.now) name.now at) }
    ensures within { IfOk result (λ at. at < length children.now) }
    ensures bound { IfErr result (λ at. at ≤ length children.now) }
{
    let mut low = 0;
    let mut high = children.len();
    while low < high {
        let middle = low + (high - low) / 2;
        match name_order(children[middle].name.as_slice(), name) {
            Ordering::Less => low = middle + 1,
            Ordering::Equal => return Ok(middle),
            Ordering::Greater => high = middle,
        }
    }
    Err(low)
}

/// How two names compare by their octets.
fn name_order(name: &[u8], other: &[u8]) -> Ordering
    ensures { result ≡ name_cmp name.now other.now }
{
    name.cmp(&other)
}
