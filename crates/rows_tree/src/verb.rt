// The words that an operation's line begins with.
use rows_base::found;

/// An operation, without its texts.
#[derive(Clone, Copy)]
pub enum TreeVerb {
    Where,
    ChangeDir,
    Up,
    MakeDir,
    RemoveDir,
    Delete,
    Rename,
    Put,
    Append,
    PutFrom,
    Get,
    GetFrom,
    Peek,
    Size,
    Modified,
    Facts,
    List,
    Names,
    Mlsd,
    Lines,
    Nlst,
}

const VERBS: &[(&'static [u8], TreeVerb)] = &[
    (b"cd", TreeVerb::ChangeDir),
    (b"up", TreeVerb::Up),
    (b"mkdir", TreeVerb::MakeDir),
    (b"rmdir", TreeVerb::RemoveDir),
    (b"delete", TreeVerb::Delete),
    (b"rename", TreeVerb::Rename),
    (b"put", TreeVerb::Put),
    (b"append", TreeVerb::Append),
    (b"put-from", TreeVerb::PutFrom),
    (b"get", TreeVerb::Get),
    (b"get-from", TreeVerb::GetFrom),
    (b"peek", TreeVerb::Peek),
    (b"size", TreeVerb::Size),
    (b"modified", TreeVerb::Modified),
    (b"facts", TreeVerb::Facts),
    (b"list", TreeVerb::List),
    (b"names", TreeVerb::Names),
    (b"mlsd", TreeVerb::Mlsd),
    (b"lines", TreeVerb::Lines),
    (b"nlst", TreeVerb::Nlst),
];

/// What a word says; another word than these asks where one is.
pub fn verb_of(word: &[u8]) -> TreeVerb {
    found(VERBS, word, TreeVerb::Where)
}
