// What goes over the data connection of a client's transfer, either way.
ghost use Rattle.std.specs.Prelude.{◌≡◌, ◌<◌, ◌≤◌, ◌⊎◌, None};
ghost use Rattle.ftp_client_model.specs.Plan.{count_of};

use crate::content::{came_in, content_in, nothing_in};
use crate::download::Download;
use crate::upload::Upload;
use ftp_client_steps::{ClientTransfer, count_of, listing_settings};
use ftp_facts::Text;
use ftp_operation::{Answer, Op};
use std::alloc::{AllocError, Allocator};

/// An upload, or a download.
pub enum OperationTransfer<A: Allocator + Copy> {
    Upload(Upload),
    Download(Download<A>),
}

/// By hand: a derived drop is made anew in each crate that lets a transfer go, and with it each client of that crate.
impl<A: Allocator + Copy> Drop for OperationTransfer<A> {
    fn drop(self) {
        match self {
            OperationTransfer::Upload(_) | OperationTransfer::Download(_) => {}
        }
    }
}

impl<A: Allocator + Copy> ClientTransfer<A> for OperationTransfer<A> {
    ghost use Rattle.ftp_client_transfer.specs.Flow.{flow_in};

    ghost flow = { flow_in };

    fn begin(op: &Op<Text<A>>, alloc: &A) -> Result<Option<Self>, AllocError> {
        match op {
            Op::Put(_, octets, how) | Op::Append(_, octets, how) => {
                let upload = Upload::new(*how, 0, octets.as_slice())?;
                Ok(Some(OperationTransfer::Upload(upload)))
            }
            Op::PutFrom(_, offset, octets, how) => {
                let upload = Upload::new(*how, *offset, octets.as_slice())?;
                Ok(Some(OperationTransfer::Upload(upload)))
            }
            Op::Get(_, how) | Op::GetFrom(_, _, how) | Op::Peek(_, _, how) => {
                let download = Download::new(how.representation, *alloc);
                Ok(Some(OperationTransfer::Download(download)))
            }
            Op::List(_, how) | Op::Names(_, how) | Op::Text(_, _, how) => {
                let settings = listing_settings(how.representation.mode);
                let download = Download::new(settings, *alloc);
                Ok(Some(OperationTransfer::Download(download)))
            }
            _ => Ok(None),
        }
    }

    fn is_down(&self, op: &Op<Text<A>>) -> bool {
        match self {
            OperationTransfer::Upload(_) => false,
            OperationTransfer::Download(_) => true,
        }
    }

    fn is_given(&self, op: &Op<Text<A>>) -> bool {
        match self {
            OperationTransfer::Upload(upload) => upload.is_given(op),
            OperationTransfer::Download(_) => false,
        }
    }

    fn has_enough(&self, op: &Op<Text<A>>) -> bool {
        let settled = match self {
            OperationTransfer::Upload(_) => 0,
            OperationTransfer::Download(download) => download.decoder.len(),
        };
        match count_of(op) {
            None => false,
            Some(count) => count <= settled,
        }
    }

    fn note(&mut self, op: &Op<Text<A>>, mark: Option<u64>) {
        if let OperationTransfer::Upload(upload) = self {
            if let Some(mark) = mark {
                upload.mark = Some(mark);
            }
        }
    }

    fn content(self, op: &Op<Text<A>>, alloc: &A) -> Result<Option<Answer<A>>, AllocError> {
        match self {
            OperationTransfer::Upload(_) => Ok(Some(nothing_in(op, alloc))),
            OperationTransfer::Download(download) => content_in(
                op,
                download.decoder.into_sink(),
                alloc,
            ),
        }
    }

    fn whole(self, op: &Op<Text<A>>, alloc: &A) -> Result<Option<Answer<A>>, AllocError> {
        match self {
            OperationTransfer::Upload(_) => Ok(Some(Answer::Done)),
            OperationTransfer::Download(mut download) => {
                if !download.decoder.is_whole() {
                    return OperationTransfer::Download(download).cut(op, alloc);
                }
                download.decoder.end()?;
                content_in(op, download.decoder.into_sink(), alloc)
            }
        }
    }

    fn cut(self, op: &Op<Text<A>>, alloc: &A) -> Result<Option<Answer<A>>, AllocError> {
        if self.has_enough(op) {
            return self.content(op, alloc);
        }
        match self {
            OperationTransfer::Upload(upload) => Ok(Some(Answer::Broken {
                got: Text::from_vec(Vec::new(*alloc)),
                mark: upload.mark,
            })),
            OperationTransfer::Download(download) => Ok(Some(Answer::Broken {
                got: Text::from_vec(download.decoder.into_sink()),
                mark: download.mark,
            })),
        }
    }

    #[tactic(auto, using(crate::proofs::CameLemmas::none_came))]
    fn came(self, op: &Op<Text<A>>, alloc: &A) -> Text<A> {
        match self {
            OperationTransfer::Upload(_) => Text::from_vec(Vec::new(*alloc)),
            OperationTransfer::Download(download) => came_in(
                op,
                download.decoder.into_sink(),
                alloc,
            ),
        }
    }

    fn hear(&mut self, op: &Op<Text<A>>, piece: &[u8]) -> Result<usize, usize> {
        let (front, _) = piece.split_at(most_at_once(op, piece.len()));
        match self {
            OperationTransfer::Upload(_) => Ok(front.len()),
            OperationTransfer::Download(download) => download.hear(front),
        }
    }

    fn give(&mut self, op: &Op<Text<A>>, room: &mut [u8]) -> usize {
        match self {
            OperationTransfer::Upload(upload) => upload.give(op, room),
            OperationTransfer::Download(_) => 0,
        }
    }
}

/// How many of so many octets are taken at once: a Peek looks behind each whether it has enough.
fn most_at_once<A: Allocator + Copy>(op: &Op<Text<A>>, octets: usize) -> usize
    ensures within { result ≤ octets }
    ensures some { 0 < octets → 0 < result }
    ensures one { (result ≤ 1) ⊎ (count_of op.now ≡ None) }
{
    match count_of(op) {
        None => octets,
        Some(_) => octets.min(1),
    }
}
