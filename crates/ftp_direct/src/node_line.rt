// The line of LIST of what stands at a path.
ghost use Rattle.std.specs.Prelude.{◌≡◌, ◌≤◌, ◌+◌, ◌++◌, OnOk, length};
ghost use Rattle.std.specs.Option.{unwrap_or};
ghost use Rattle.ftp_path.specs.Path.{text_limit};
ghost use Rattle.ftp_tree.specs.Map.{Dir};
ghost use Rattle.ftp_tree.specs.Tree.{node_at, under};
ghost use Rattle.ftp_direct.specs.Listing.{last_name, node_line};

use crate::entry::file_at;
use crate::list_line::{put_dir_line, put_file_line};
use ftp_tree::{Path, Tree};
use std::alloc::{AllocError, Allocator};

/// Puts the line of LIST for what stands at a path.
pub fn put_node<A: Allocator + Copy, T: Tree<A>>(
    tree: &T,
    root: &Path<A>,
    path: &Path<A>,
    name: &[u8],
    line: &mut Vec<u8, A>,
) -> Result<(), AllocError>
    // Witness of line: equations, of what is left where memory was not refused.
    ensures line { OnOk result (line.new.items ≡ line.old.items ++ node_line name.now (unwrap_or (node_at (under (T.table tree.now) root.now) path.now) Dir)) }
    // Witness of few: as of `put_file_line`.
    ensures few { OnOk result (length line.new.items ≤ length line.old.items + (100 + length name.now)) }
{
    let Some(file) = file_at(tree, root, path) else {
        put_dir_line(name, line)?;
        return Ok(());
    };
    put_file_line(name, file.size, file.moment, line)?;
    Ok(())
}

/// The last name of a path; no octets for the root.
pub fn last_name<A: Allocator + Copy>(path: &Path<A>) -> &[u8]
    ensures name { result.now ≡ last_name path.now }
    // Witness of few: `Listing` of `ftp_server_transfer` needs it.
    ensures few { length result.now ≤ text_limit }
{
    let octets = path.key();
    let start = path.parent_key().len() + 1;
    let (_, name) = octets.split_at(start.min(octets.len()));
    name
}
