// What a `.netrc` says of a host.
ghost use Rattle.std.specs.Prelude.{◌≡◌, ◌++◌, ◌∷◌, [], OnOk, IfOk, IfErr};
ghost use Rattle.std.specs.List.{fold};
ghost use Rattle.tool_login.specs.Netrc.{IsNetrcFault, state_behind, entry_said, is_torn, kept, read, start, step, word_ended};

use crate::entry::{EntrySearch, NetrcEntry, Wanted, is_macro};
use crate::fault::NetrcFault;
use crate::spot::{WordAction, WordPosition, macro_behind, turn};
use ftp_facts::Text;
use std::alloc::{AllocError, Global};

/// The first entry of a `.netrc` that is of this host, or of each (`default`), and has this user, or anybody where `user` is empty.
pub fn netrc_entry(
    alloc: Global,
    text: &[u8],
    host: &[u8],
    user: &[u8],
) -> Result<Option<NetrcEntry<Text<Global>>>, NetrcFault>
    // Witness of entry: an equation, where memory is not refused.
    ensures entry { IfOk result (λ entry. entry ≡ entry_said host.now user.now text.now) }
    // Witness of fault: an equation, beside memory.
    ensures fault { IfErr result (λ fault. IsNetrcFault host.now user.now text.now fault) }
{
    match read(alloc, text, Wanted { host, user }) {
        Ok(
            NetrcReader {
                spot: WordPosition::Torn,
                ..
            },
        ) => Err(NetrcFault::Quote),
        Ok(NetrcReader { search, .. }) => Ok(search.entry(user)),
        Err(AllocError) => Err(NetrcFault::Memory),
    }
}

/// What was read of a text.
#[derive(Drop)]
struct NetrcReader {
    spot: WordPosition,
    /// What stands of a word so far.
    word: Vec<u8, Global>,
    search: EntrySearch<Text<Global>>,
}

/// A reader behind all of a text, whose last line has an end.
fn read(alloc: Global, text: &[u8], wanted: Wanted<'_>) -> Result<NetrcReader, AllocError>
    ensures { IfOk result (λ reader. (reader.spot, reader.word.items, reader.search) ≡ read wanted.entry.host.now wanted.entry.user.now text.now) }
{
    let mut reader = NetrcReader {
        spot: WordPosition::LineStart,
        word: Vec::new(alloc),
        search: EntrySearch::blank(),
    };
    for octet in text {
        reader = reader.stepped(alloc, wanted, *octet)?;
    }
    reader.stepped(alloc, wanted, b'\n')
}

impl NetrcReader {
    /// Behind one more octet.
    fn stepped(
        self,
        alloc: Global,
        wanted: Wanted<'_>,
        octet: u8,
    ) -> Result<NetrcReader, AllocError>
        ensures { IfOk result (λ reader. (reader.spot, reader.word.items, reader.search)
            ≡ step wanted.entry.host.now wanted.entry.user.now (self.spot, self.word.items, self.search) octet) }
    {
        let (spot, action) = turn(self.spot, octet);
        match action {
            WordAction::Nothing => Ok(NetrcReader { spot, ..self }),
            WordAction::Keep(octet) => self.kept(spot, octet),
            WordAction::End => Ok(self.word_ended(alloc, wanted, spot)),
        }
    }

    /// With one more octet in the word.
    fn kept(self, spot: WordPosition, octet: u8) -> Result<NetrcReader, AllocError>
        ensures { IfOk result (λ reader. (reader.spot, reader.word.items, reader.search) ≡ kept spot octet (self.spot, self.word.items, self.search)) }
    {
        let NetrcReader {
            spot: _,
            mut word,
            search,
        } = self;
        word.push(octet)?;
        Ok(NetrcReader { spot, word, search })
    }

    /// Behind the end of the word.
    fn word_ended(self, alloc: Global, wanted: Wanted<'_>, spot: WordPosition) -> NetrcReader
        ensures { (result.spot, result.word.items, result.search)
            ≡ word_ended wanted.entry.host.now wanted.entry.user.now spot (self.spot, self.word.items, self.search) }
    {
        let NetrcReader {
            spot: _,
            word,
            search,
        } = self;
        let spot = if search.looks() && is_macro(word.as_slice()) {
            macro_behind(spot)
        } else {
            spot
        };
        NetrcReader {
            spot,
            word: Vec::new(alloc),
            search: search.took(wanted, Text::from_vec(word)),
        }
    }
}
