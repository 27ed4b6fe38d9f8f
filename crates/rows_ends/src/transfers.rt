// Rows of a server's transfers alone, on a tree that others change between their calls, or whose device fails or strays.
use ftp_facts::{Facts, Moment};
use ftp_operation::Rights;
use ftp_path::Path;
use ftp_server_model::{FixedReply, Keep};
use ftp_server_replies::{Fault, ServerTransfer, Told, fixed_code};
use ftp_server_transfer::TreeTransfer;
use ftp_settings::{Kind, Mode, Representation, Structure};
use ftp_tree::{Draft, Tree, TreeFault};
use ftp_tree_memory::MemTree;
use rows_base::{Paper, cut, found, number, octets_of, split};
use rows_tree::{FailingTree, StrayingTree, place, show_tree, strays_so};
use std::alloc::{AllocError, Global};

/// The second in which what comes is put.
const NOW: Moment = Moment {
    seconds: 946_684_800,
};

/// What stands on the stage of a row.
#[derive(Drop)]
struct TransferStage<J: Drop> {
    alloc: Global,
    tree: StrayingTree<Global>,
    transfer: Option<J>,
    settings: Representation,
    rights: Rights,
}

/// What a line does.
#[derive(Clone, Copy)]
enum TransferStep {
    Type,
    Dir,
    File,
    Delete,
    Remove,
    Rename,
    Device,
    Strays,
    Adds,
    Download,
    Upload,
    Append,
    List,
    Names,
    Entries,
    Give,
    Data,
    End,
    Break,
    Tree,
    Nothing,
}

const STEPS: &[(&'static [u8], TransferStep)] = &[
    (b"type", TransferStep::Type),
    (b"dir", TransferStep::Dir),
    (b"file", TransferStep::File),
    (b"delete", TransferStep::Delete),
    (b"remove", TransferStep::Remove),
    (b"rename", TransferStep::Rename),
    (b"device", TransferStep::Device),
    (b"strays", TransferStep::Strays),
    (b"adds", TransferStep::Adds),
    (b"download", TransferStep::Download),
    (b"upload", TransferStep::Upload),
    (b"append", TransferStep::Append),
    (b"list", TransferStep::List),
    (b"names", TransferStep::Names),
    (b"entries", TransferStep::Entries),
    (b"give", TransferStep::Give),
    (b"data", TransferStep::Data),
    (b"end", TransferStep::End),
    (b"break", TransferStep::Break),
    (b"tree", TransferStep::Tree),
];

/// The most octets of one `give`.
const ROOM: usize = 4_096;

/// Plays a row: each line, and what came of it behind it.
pub fn play_row(alloc: Global, row: &[u8], paper: &mut Paper) {
    play::<TreeTransfer<Global, StrayingTree<Global>>>(alloc, row, paper);
    paper.put(b"\n");
}

/// The same by such transfers: who names a tree's does not name these.
fn play<J: ServerTransfer<Global, StrayingTree<Global>>>(
    alloc: Global,
    row: &[u8],
    paper: &mut Paper,
) {
    let mut stage: TransferStage<J> = TransferStage::new(alloc);
    let mut rest = row;
    for _ in 0..row.len() {
        let (line, behind) = cut(rest, b'\n');
        if line.is_empty() {
            break;
        }
        paper.line(line);
        stage.play(line, paper);
        rest = behind;
    }
}

impl<J: ServerTransfer<Global, StrayingTree<Global>>> TransferStage<J> {
    /// Nothing stands in the tree, and its device neither fails nor strays; files go in type I, file structure and stream mode.
    fn new(alloc: Global) -> TransferStage<J> {
        TransferStage {
            alloc,
            tree: StrayingTree::new(FailingTree::new(MemTree::new(alloc), 0)),
            transfer: None,
            settings: Representation {
                kind: Kind::Image,
                structure: Structure::File,
                mode: Mode::Stream,
            },
            rights: Rights::all(),
        }
    }

    fn play(&mut self, line: &[u8], paper: &mut Paper) {
        let (word, rest) = split(line);
        match found(STEPS, word, TransferStep::Nothing) {
            TransferStep::Nothing => {}
            TransferStep::Type => self.settings.kind = Kind::Ascii,
            TransferStep::Adds => self.rights.replace = false,
            TransferStep::Device => self.tree.fails_at(number(rest)),
            TransferStep::Strays => self.strays(rest, paper),
            TransferStep::Give => self.give(number(rest), paper),
            TransferStep::Data => self.data(rest, paper),
            TransferStep::End => self.ends(false, paper),
            TransferStep::Break => self.ends(true, paper),
            TransferStep::Tree => show_tree(self.alloc, self.tree.memory(), paper),
            step => self.at_path(step, rest, paper),
        }
    }

    /// The device strays so from here on.
    fn strays(&mut self, how: &[u8], paper: &mut Paper) {
        if !strays_so(self.alloc, self.alloc, &mut self.tree, how) {
            paper.line(b"! no stray");
        }
    }

    /// A line that names a path, and perhaps something more.
    fn at_path(&mut self, step: TransferStep, rest: &[u8], paper: &mut Paper) {
        let (text, more) = split(rest);
        match place(self.alloc, text) {
            Ok(path) => self.do_at(step, path, more, paper),
            Err(_) => paper.fill(),
        }
    }

    fn do_at(&mut self, step: TransferStep, path: Path<Global>, more: &[u8], paper: &mut Paper) {
        let root = Path::root(self.alloc);
        let changed = match step {
            TransferStep::Dir => self.tree.make_dir(&root, &path),
            TransferStep::Delete => self.tree.delete(&root, &path),
            TransferStep::Remove => self.tree.remove_dir(&root, &path),
            TransferStep::File => self.file(&path, more),
            TransferStep::Rename => self.rename(&path, more),
            _ => return self.begin(step, path, number(more), paper),
        };
        if changed.is_err() {
            paper.line(b"! refused");
        }
    }

    fn rename(&mut self, path: &Path<Global>, to: &[u8]) -> Result<(), TreeFault> {
        let to = place(self.alloc, to)?;
        self.tree.rename(&Path::root(self.alloc), path, &to)
    }

    /// Puts a file, as another session does.
    fn file(&mut self, path: &Path<Global>, octets: &[u8]) -> Result<(), TreeFault> {
        let root = Path::root(self.alloc);
        let Ok(octets) = octets_of(self.alloc, octets) else {
            return Err(TreeFault::Memory);
        };
        let mut came = self.tree.begin(&root, path, 0)?;
        if came.push(octets.as_slice()).is_err() {
            return Err(TreeFault::Memory);
        }
        self.tree.put(&root, path, 0, came, NOW)
    }

    fn begin(&mut self, step: TransferStep, path: Path<Global>, at: u64, paper: &mut Paper) {
        match self.begun(step, path, at) {
            Ok(transfer) => self.transfer = Some(transfer),
            Err(Fault::Memory) => paper.line(b"! no memory"),
            Err(Fault::Device) => paper.line(b"! the device failed"),
        }
    }

    fn begun(&mut self, step: TransferStep, mut path: Path<Global>, at: u64) -> Result<J, Fault> {
        let (alloc, settings) = (self.alloc, self.settings);
        let root = Path::root(alloc);
        match step {
            TransferStep::Download => J::download(&mut self.tree, &root, &path, at, settings),
            TransferStep::Upload | TransferStep::Append => {
                let keep = self.kept(step, &path, at);
                J::upload(alloc, &mut self.tree, &root, &mut path, keep, settings)
            }
            _ => match self.listing(step, &mut path) {
                Ok(listing) => Ok(listing),
                Err(_) => Err(Fault::Memory),
            },
        }
    }

    /// The octets before a place, or all that stand there.
    fn kept(&self, step: TransferStep, path: &Path<Global>, at: u64) -> Keep {
        match step {
            TransferStep::Append => {
                let size = self.tree.size(&Path::root(self.alloc), path);
                Keep::All(size.unwrap_or(0))
            }
            _ => Keep::First(at),
        }
    }

    fn listing(&mut self, step: TransferStep, path: &mut Path<Global>) -> Result<J, AllocError> {
        let (alloc, mode) = (self.alloc, self.settings.mode);
        let root = Path::root(alloc);
        match step {
            TransferStep::List => J::list(alloc, &self.tree, &root, path, mode),
            TransferStep::Names => J::names(alloc, &self.tree, &root, path, &None, mode),
            _ => J::entries(alloc, &self.tree, &root, path, Facts::ALL, mode),
        }
    }

    /// Gives at most so many octets, and says which, and whether those that come next were not had, or all is given.
    fn give(&mut self, most: u64, paper: &mut Paper) {
        let Some(transfer) = &mut self.transfer else {
            return paper.line(b"! nothing stands");
        };
        let mut room = [0; ROOM];
        let (front, _) = room.split_at_mut((most as usize).min(ROOM));
        let given = transfer.give(&mut self.tree, front);
        paper.put(b"gave ");
        paper.quote(&front[..given.count]);
        if given.lost {
            paper.put(b", lost");
        }
        if transfer.is_given_out() {
            paper.put(b", all");
        }
        paper.line(b"");
    }

    /// Octets come: all are taken but where something is to be said first.
    fn data(&mut self, text: &[u8], paper: &mut Paper) {
        let Some(transfer) = &mut self.transfer else {
            return paper.line(b"! nothing stands");
        };
        let Ok(octets) = octets_of(self.alloc, text) else {
            return paper.fill();
        };
        let received = transfer.receive(&self.tree, &Path::root(self.alloc), octets.as_slice());
        paper.put(b"took ");
        paper.number(received.count as u64);
        paper.line(match received.told {
            Told::Nothing => b"".as_slice(),
            Told::Mark(_) => b", a marker",
            Told::Faulty => b", a fault",
            Told::NoMemory => b", no memory",
        });
    }

    /// The data connection ended or broke: the code that ends the transfer.
    fn ends(&mut self, breaks: bool, paper: &mut Paper) {
        let Some(transfer) = self.transfer.take() else {
            return paper.line(b"! nothing stands");
        };
        let root = Path::root(self.alloc);
        let ended = if breaks {
            transfer.at_break(&mut self.tree, &root, self.rights, NOW)
        } else {
            transfer.at_end(&mut self.tree, &root, self.rights, NOW)
        };
        put_end(ended, paper);
    }
}

/// All facts.
fn put_end(ended: Result<FixedReply, Fault>, paper: &mut Paper) {
    match ended {
        Ok(text) => {
            paper.put(b"= ");
            paper.number(fixed_code(text) as u64);
            paper.line(b"");
        }
        Err(Fault::Memory) => paper.line(b"! no memory"),
        Err(Fault::Device) => paper.line(b"! the device failed"),
    }
}
