// The octets of a download, out of the answer to a try.
use crate::downloading::Downloading;
use crate::version::Size;
use ftp_facts::Text;
use ftp_operation::Answer;
use std::alloc::{AllocError, Global};
use std::io::Eprint;
use std::mem;
use tool_files::LocalFiles;

impl<'a, R: LocalFiles + Eprint> Downloading<'a, R> {
    /// Takes the octets out of an answer; where the control connection ended in the middle of a transfer, those that came until then (`kept`, and to the part
    /// what it has more than `before`), which is answered as a break. Without the size of the file nothing goes on behind them, and they are left.
    pub(crate) fn take(
        &mut self,
        mut answer: Answer<Global>,
        kept: &[u8],
        before: u64,
    ) -> Answer<Global> {
        let none = Text::from_vec(Vec::new(self.alloc));
        let octets = match &mut answer {
            Answer::Octets(octets) => mem::replace(octets, none),
            Answer::Broken { got, mark: _ } => mem::replace(got, none),
            Answer::Lost => return self.take_lost(kept, before),
            _ => return answer,
        };
        match self.came.add(octets) {
            Ok(()) if matches!(&answer, Answer::Octets(_)) => Answer::Done,
            Ok(()) => answer,
            Err(AllocError) => Answer::Memory,
        }
    }

    /// Takes octets that came before the control connection ended, or leaves them.
    fn take_lost(&mut self, kept: &[u8], before: u64) -> Answer<Global> {
        if !matches!(self.file.size, Size::Told(_)) {
            if self.came.count() > before {
                self.came.cut(before);
            }
            return Answer::Lost;
        }
        if kept.is_empty() && self.came.count() == before {
            return Answer::Lost;
        }
        self.take_kept(kept)
    }

    /// Takes octets that came before the control connection ended.
    fn take_kept(&mut self, kept: &[u8]) -> Answer<Global> {
        match Text::copy_of(self.alloc, kept).and_then(|octets| self.came.add(octets)) {
            Ok(()) => Answer::Broken {
                got: Text::from_vec(Vec::new(self.alloc)),
                mark: None,
            },
            Err(AllocError) => Answer::Memory,
        }
    }
}
