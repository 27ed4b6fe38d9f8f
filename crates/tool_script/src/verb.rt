// The words that begin a line.
ghost use Rattle.std.specs.Prelude.{◌≡◌, find};
ghost use Rattle.tool_script.specs.Verb.{is_named, list_verb_value, word_of};
ghost use Rattle.tool_script.specs.declared.verb.TheConstants.{VERBS};

use ftp_operation::ListVerb;

/// A verb with nothing behind it.
#[derive(Clone, Copy)]
pub(crate) enum Alone {
    Where,
    Up,
}

/// A verb with a path behind it.
#[derive(Clone, Copy)]
pub(crate) enum OnPath {
    ChangeDir,
    MakeDir,
    RemoveDir,
    Delete,
    Modified,
    Facts,
}

/// A verb by which something of a path is had, in a representation.
#[derive(Clone, Copy)]
pub(crate) enum Taking {
    Get,
    Size,
    Entries,
    Names,
}

/// A verb by which a part of a file is had, in a representation; a number says which.
#[derive(Clone, Copy)]
pub(crate) enum PartVerb {
    /// From an offset on.
    GetFrom,
    /// The first octets.
    Peek,
}

/// A verb by which octets go to a path, in a representation.
#[derive(Clone, Copy)]
pub(crate) enum Giving {
    Put,
    Append,
}

/// What begins the line of an order.
#[derive(Clone, Copy)]
pub(crate) enum ScriptVerb {
    Alone(Alone),
    OnPath(OnPath),
    Rename,
    Taking(Taking),
    Part(PartVerb),
    Giving(Giving),
    /// From an offset on.
    GivingFrom,
    /// Over breaks.
    Upload,
    /// A listing as text.
    Text,
}

const VERBS: [ScriptVerb; 20] = [
    ScriptVerb::Alone(Alone::Where),
    ScriptVerb::Alone(Alone::Up),
    ScriptVerb::OnPath(OnPath::ChangeDir),
    ScriptVerb::OnPath(OnPath::MakeDir),
    ScriptVerb::OnPath(OnPath::RemoveDir),
    ScriptVerb::OnPath(OnPath::Delete),
    ScriptVerb::OnPath(OnPath::Modified),
    ScriptVerb::OnPath(OnPath::Facts),
    ScriptVerb::Rename,
    ScriptVerb::Taking(Taking::Get),
    ScriptVerb::Taking(Taking::Size),
    ScriptVerb::Taking(Taking::Entries),
    ScriptVerb::Taking(Taking::Names),
    ScriptVerb::Part(PartVerb::GetFrom),
    ScriptVerb::Part(PartVerb::Peek),
    ScriptVerb::Giving(Giving::Put),
    ScriptVerb::Giving(Giving::Append),
    ScriptVerb::GivingFrom,
    ScriptVerb::Upload,
    ScriptVerb::Text,
];

/// The verb of a word.
pub(crate) fn verb_of(word: &[u8]) -> Option<ScriptVerb>
    ensures { result ≡ find (is_named word.now) VERBS }
{
    named_in(VERBS.as_slice(), word)
}

fn named_in(verbs: &[ScriptVerb], word: &[u8]) -> Option<ScriptVerb>
    ensures { result ≡ find (is_named word.now) verbs.now }
{
    verbs.iter().find(|verb| is_named(word, **verb)).copied()
}

fn is_named(word: &[u8], verb: ScriptVerb) -> bool
    ensures { result ≡ is_named word.now verb }
{
    word == word_of(verb)
}

fn word_of(verb: ScriptVerb) -> &'static [u8]
    ensures { result.now ≡ word_of verb }
{
    match verb {
        ScriptVerb::Alone(Alone::Where) => b"where",
        ScriptVerb::Alone(Alone::Up) => b"up",
        ScriptVerb::OnPath(OnPath::ChangeDir) => b"cd",
        ScriptVerb::OnPath(OnPath::MakeDir) => b"mkdir",
        ScriptVerb::OnPath(OnPath::RemoveDir) => b"rmdir",
        ScriptVerb::OnPath(OnPath::Delete) => b"delete",
        ScriptVerb::OnPath(OnPath::Modified) => b"modified",
        ScriptVerb::OnPath(OnPath::Facts) => b"facts",
        ScriptVerb::Rename => b"rename",
        ScriptVerb::Taking(Taking::Get) => b"get",
        ScriptVerb::Taking(Taking::Size) => b"size",
        ScriptVerb::Taking(Taking::Entries) => b"list",
        ScriptVerb::Taking(Taking::Names) => b"names",
        ScriptVerb::Part(PartVerb::GetFrom) => b"getfrom",
        ScriptVerb::Part(PartVerb::Peek) => b"peek",
        ScriptVerb::Giving(Giving::Put) => b"put",
        ScriptVerb::Giving(Giving::Append) => b"append",
        ScriptVerb::GivingFrom => b"putfrom",
        ScriptVerb::Upload => b"upload",
        ScriptVerb::Text => b"text",
    }
}

/// The command that a word names.
pub(crate) fn list_verb_of(word: &[u8]) -> Option<ListVerb>
    ensures { result ≡ list_verb_value word.now }
{
    if word == b"mlsd".as_slice() {
        Some(ListVerb::Mlsd)
    } else if word == b"list".as_slice() {
        Some(ListVerb::List)
    } else if word == b"nlst".as_slice() {
        Some(ListVerb::Nlst)
    } else {
        None
    }
}
