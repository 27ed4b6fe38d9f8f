//! What the tree's definitions say of single paths. The calls do nothing: their contracts are the laws.
ghost use Rattle.ftp_tree.specs.Laws.{ChangesKeepTrees, ChildrenStand, NamesRise, OldMapsAreNew, OntoMovesAll, PartsAreTrees, PartsArePut, PartsComeBack, RenameMovesAll, UnderStandsBelow};

/// In the part of a tree below a path, what stands at a path is what stands in the tree behind both.
pub fn under_stands_below()
    // Witness: laws; `edits/a_rename_leaves_the_children_behind` of `ftp_tree_nodes`.
    ensures { UnderStandsBelow }
{}

/// A part that is put at a path stands there, no other path changes, and the part can be taken again.
pub fn parts_are_put()
    // Witness: as of `under_stands_below`.
    ensures { PartsArePut }
{}

/// A part that is taken can be put back; the part at and below the root is the whole map.
pub fn parts_come_back()
    // Witness: as of `under_stands_below`.
    ensures { PartsComeBack }
{}

/// The part below a directory of a tree is a tree, and a tree put in its place leaves a tree.
pub fn parts_are_trees()
    // Witness: as of `under_stands_below`.
    ensures { PartsAreTrees }
{}

/// A rename that is not refused takes all at or below the old path to the new one, and changes no other path.
pub fn rename_moves_all()
    // Witness: as of `under_stands_below`.
    ensures { RenameMovesAll }
{}

/// A file that is moved onto another stands there then, no longer where it was, and no other path changes.
pub fn onto_moves_all()
    // Witness: as of `under_stands_below`.
    ensures { OntoMovesAll }
{}

/// The names in a directory are those by which something stands directly in it.
pub fn children_stand()
    // Witness: as of `under_stands_below`.
    ensures { ChildrenStand }
{}

/// The names in a directory come in the order of their octets, each once.
pub fn names_rise()
    // Witness: as of `under_stands_below`.
    ensures { NamesRise }
{}

/// Every map within the limits that held once is within those that hold now.
pub fn old_maps_are_new()
    // Witness: as of `under_stands_below`.
    ensures { OldMapsAreNew }
{}

/// In a new tree and after each change that is not refused the root is a directory, and so is each parent.
pub fn changes_keep_trees()
    // Witness: as of `under_stands_below`.
    ensures { ChangesKeepTrees }
{}
