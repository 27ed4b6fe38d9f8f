// A transfer of any kind: each call is that of its kind.
ghost use Rattle.std.specs.Prelude.{◌≡◌, IfOk};
ghost use Rattle.ftp_server_model.specs.Ask.{or_empty};
ghost use Rattle.ftp_server_transfer.specs.TreeTransfer.{transfer_of};

use crate::ending::{fault_by, kept_count};
use crate::line::What;
use crate::listing::Listing;
use crate::named::Named;
use crate::standing::standing_at;
use crate::{Download, Upload};
use ftp_command::Argument;
use ftp_facts::{Facts, Moment};
use ftp_operation::Rights;
use ftp_path::Path;
use ftp_server_model::{FixedReply, Keep, Standing};
use ftp_server_replies::{Fault, Given, Received, ServerTransfer, Told};
use ftp_settings::{Mode, Representation};
use ftp_tree::Tree;
use std::alloc::{AllocError, Allocator};
use std::mem;

/// A transfer of a server.
#[derive(Drop)]
pub enum TreeTransfer<A: Allocator + Copy, T: Tree<A>> {
    /// An upload below its limits.
    Upload(Upload<A, T>),
    /// An upload that passed a limit of octets: the rest is dropped unread.
    OverLimit,
    Download(Download<A, T>),
    Listing(Listing<A>),
}

impl<A: Allocator + Copy, T: Tree<A>> ServerTransfer<A, T> for TreeTransfer<A, T> {
    ghost view = { λ transfer. transfer_of T.opened transfer };

    fn download(
        tree: &mut T,
        root: &Path<A>,
        path: &Path<A>,
        place: u64,
        settings: Representation,
    ) -> Result<TreeTransfer<A, T>, Fault> {
        let failures = tree.device_failures();
        match tree.open(root, path) {
            Ok(file) => Ok(TreeTransfer::Download(Download::new(file, place, settings))),
            Err(_) => Err(fault_by(failures, tree.device_failures())),
        }
    }

    fn upload(
        alloc: A,
        tree: &mut T,
        root: &Path<A>,
        path: &mut Path<A>,
        keep: Keep,
        settings: Representation,
    ) -> Result<TreeTransfer<A, T>, Fault> {
        let failures = tree.device_failures();
        match tree.begin(root, path, kept_count(keep)) {
            Ok(draft) => {
                let path = mem::replace(path, Path::root(alloc));
                Ok(TreeTransfer::Upload(Upload::new(path, keep, settings, draft)))
            }
            Err(_) => Err(fault_by(failures, tree.device_failures())),
        }
    }

    fn list(
        alloc: A,
        tree: &T,
        root: &Path<A>,
        path: &mut Path<A>,
        mode: Mode,
    ) -> Result<TreeTransfer<A, T>, AllocError> {
        let path = mem::replace(path, Path::root(alloc));
        let listing = Listing::new(alloc, tree, root, path, What::Lines, mode)?;
        Ok(TreeTransfer::Listing(listing))
    }

    fn names(
        alloc: A,
        tree: &T,
        root: &Path<A>,
        path: &mut Path<A>,
        text: &Option<Argument<A>>,
        mode: Mode,
    ) -> Result<TreeTransfer<A, T>, AllocError> {
        let text = named(alloc, text)?;
        let path = mem::replace(path, Path::root(alloc));
        let listing = Listing::new(alloc, tree, root, path, What::Names(text), mode)?;
        Ok(TreeTransfer::Listing(listing))
    }

    fn entries(
        alloc: A,
        tree: &T,
        root: &Path<A>,
        path: &mut Path<A>,
        facts: Facts,
        mode: Mode,
    ) -> Result<TreeTransfer<A, T>, AllocError> {
        let path = mem::replace(path, Path::root(alloc));
        let listing = Listing::new(alloc, tree, root, path, What::Entries(facts), mode)?;
        Ok(TreeTransfer::Listing(listing))
    }

    fn takes_octets(&self) -> bool {
        match self {
            TreeTransfer::Upload(_) | TreeTransfer::OverLimit => true,
            TreeTransfer::Download(_) | TreeTransfer::Listing(_) => false,
        }
    }

    fn receive(&mut self, tree: &T, root: &Path<A>, piece: &[u8]) -> Received {
        match self {
            TreeTransfer::Upload(upload) => {
                let arrived = upload.receive(tree, root, piece);
                if arrived.is_over {
                    *self = TreeTransfer::OverLimit;
                }
                arrived.received
            }
            TreeTransfer::OverLimit => Received {
                count: piece.len(),
                told: Told::Nothing,
            },
            TreeTransfer::Download(_) | TreeTransfer::Listing(_) => Received {
                count: 0,
                told: Told::Nothing,
            },
        }
    }

    fn give(&mut self, tree: &mut T, room: &mut [u8]) -> Given {
        match self {
            TreeTransfer::Download(download) => download.give(tree, room),
            TreeTransfer::Listing(listing) => {
                let given = listing.give(room);
                Given {
                    count: given.made,
                    lost: given.refused,
                }
            }
            TreeTransfer::Upload(_) | TreeTransfer::OverLimit => Given {
                count: 0,
                lost: false,
            },
        }
    }

    fn is_given_out(&self) -> bool {
        match self {
            TreeTransfer::Download(download) => download.is_given_out(),
            TreeTransfer::Listing(listing) => listing.is_given_out(),
            TreeTransfer::Upload(_) | TreeTransfer::OverLimit => false,
        }
    }

    fn stands(&self, tree: &T, root: &Path<A>) -> Option<Standing> {
        match self {
            TreeTransfer::Upload(upload) => Some(standing_at(tree, root, &upload.path)),
            TreeTransfer::OverLimit | TreeTransfer::Download(_) | TreeTransfer::Listing(_) => None,
        }
    }

    fn overtake(&mut self) {
        match self {
            TreeTransfer::Upload(upload) => upload.overtake(),
            TreeTransfer::OverLimit | TreeTransfer::Download(_) | TreeTransfer::Listing(_) => {}
        }
    }

    fn at_end(
        self,
        tree: &mut T,
        root: &Path<A>,
        rights: Rights,
        moment: Moment,
    ) -> Result<FixedReply, Fault> {
        match self {
            TreeTransfer::Upload(upload) => upload.at_end(tree, root, rights, moment),
            TreeTransfer::OverLimit => Ok(FixedReply::TooMuch),
            TreeTransfer::Download(_) | TreeTransfer::Listing(_) => Ok(FixedReply::Broken),
        }
    }

    fn at_break(
        self,
        tree: &mut T,
        root: &Path<A>,
        rights: Rights,
        moment: Moment,
    ) -> Result<FixedReply, Fault> {
        match self {
            TreeTransfer::Upload(upload) => upload.at_break(tree, root, rights, moment),
            TreeTransfer::OverLimit => Ok(FixedReply::TooMuch),
            TreeTransfer::Download(_) | TreeTransfer::Listing(_) => Ok(FixedReply::Broken),
        }
    }
}

/// The text that named what is listed; none is empty.
fn named<A: Allocator + Copy>(alloc: A, text: &Option<Argument<A>>) -> Result<Named<A>, AllocError>
    ensures { IfOk result (λ named. named ≡ or_empty text.now) }
{
    match text {
        Some(text) => Named::copy_of(alloc, text.octets()),
        None => Named::copy_of(alloc, &[]),
    }
}
