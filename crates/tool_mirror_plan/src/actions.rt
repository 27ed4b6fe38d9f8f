// What is done of one name.
ghost use Rattle.std.specs.Prelude.{◌≡◌};
ghost use Rattle.tool_mirror_plan.specs.Actions.{alone, actions_for, differ, differs, dir_onto, file_onto, file_onto_file, in_place, is_later, is_untold, nameless, onto, onto_by_facts, onto_by_octets, removal, removal_for};

use std::alloc::Global;
use tool_listing::{ItemFacts, ItemKind, ListedItem, is_name};

/// Which way a tree is copied.
#[derive(Clone, Copy)]
pub enum CopyDirection {
    /// From a server to this machine.
    Down,
    /// From this machine to a server.
    Up,
}

/// By what a file is seen to differ.
#[derive(Clone, Copy)]
pub enum Check {
    /// Its size and its moment.
    ByFacts,
    /// Its octets.
    ByOctets,
}

/// What becomes of what the target has and the source has not.
#[derive(Clone, Copy)]
pub enum Extra {
    Kept,
    /// It is removed where that is not too much of the target: not in a directory that the source lists empty, and not past `may_remove`.
    Removed,
    /// It is removed, however much it is.
    Any,
}

/// How a tree is mirrored.
#[derive(Clone, Copy)]
pub struct Rules {
    pub way: CopyDirection,
    pub check: Check,
    pub extra: Extra,
}

/// Why an entry is refused.
#[derive(Clone, Copy)]
pub enum RefusalReason {
    /// Its name is none of a single file.
    Name,
    /// A directory stands where a file is to be.
    Directory,
    /// A file stands where a directory is to be.
    File,
    /// What stands there is neither.
    Neither,
    /// A listing has more entries than are taken.
    CutOff,
    /// A line of a listing is no entry.
    Odd,
    /// The source lists nothing where the target has so many entries to be removed.
    Emptied(usize),
}

impl RefusalReason {
    /// Why, as it is told behind the name.
    pub fn sentence(self) -> &'static str {
        match self {
            RefusalReason::Name => "the name is none of a single file; it is left out",
            RefusalReason::Directory => {
                "a directory stands where a file is to be, and stays without --delete"
            }
            RefusalReason::File =>
                "a file stands where a directory is to be, and stays without --delete",
            RefusalReason::Neither => {
                "what stands there is neither file nor directory, and stays without --delete"
            }
            RefusalReason::Odd => "a line of the listing is no entry; it is left out",
            RefusalReason::CutOff =>
                "more than 1,000,000 entries are listed; nothing is done there",
            RefusalReason::Emptied(_) =>
                "the source lists nothing there, and what the target has stays",
        }
    }
}

/// What is done of a name.
#[derive(Clone, Copy)]
pub enum Action {
    /// The file is copied, of which this is known.
    Copy(ItemFacts),
    /// The file is copied where its octets are others.
    Compare(ItemFacts),
    /// The directory is made, and gone into.
    MakeDir,
    /// The directory is gone into.
    Enter,
    RemoveFile,
    /// The directory is removed with all below it.
    RemoveDir,
    /// What is neither file nor directory is left out.
    PassOver,
    Refuse(RefusalReason),
}

/// What is done of a name, in its order.
#[derive(Clone, Copy)]
pub enum Actions {
    Nothing,
    One(Action),
    Two(Action, Action),
}

/// What is done of an entry of the source, where this stands under its name in the target.
pub fn actions_for(rules: Rules, item: &ListedItem<Global>, target: Option<ItemKind>) -> Actions
    ensures { result ≡ actions_for rules item.now target }
{
    if is_name(item.name.as_slice()) {
        onto(rules, item.kind, target)
    } else {
        Actions::One(Action::Refuse(nameless(item.kind)))
    }
}

/// Why an entry is refused whose name is none of a single file.
fn nameless(kind: ItemKind) -> RefusalReason
    ensures { result ≡ nameless kind }
{
    match kind {
        ItemKind::Odd => RefusalReason::Odd,
        ItemKind::File(_) | ItemKind::Dir | ItemKind::Other | ItemKind::Excluded =>
            RefusalReason::Name,
    }
}

fn onto(rules: Rules, source: ItemKind, target: Option<ItemKind>) -> Actions
    ensures { result ≡ onto rules source target }
{
    match source {
        ItemKind::File(facts) => file_onto(rules, facts, target),
        ItemKind::Dir => dir_onto(rules, target),
        ItemKind::Other => Actions::One(Action::PassOver),
        ItemKind::Excluded => Actions::Nothing,
        ItemKind::Odd => Actions::One(Action::Refuse(RefusalReason::Odd)),
    }
}

fn file_onto(rules: Rules, source: ItemFacts, target: Option<ItemKind>) -> Actions
    ensures { result ≡ file_onto rules source target }
{
    let copy = Action::Copy(source);
    match target {
        None => Actions::One(copy),
        Some(ItemKind::File(found)) => file_onto_file(rules.check, rules.way, source, found),
        Some(ItemKind::Dir) => in_place(
            rules.extra,
            Action::RemoveDir,
            copy,
            RefusalReason::Directory,
        ),
        Some(ItemKind::Other) => in_place(
            rules.extra,
            Action::RemoveFile,
            copy,
            RefusalReason::Neither,
        ),
        Some(ItemKind::Excluded) => Actions::Nothing,
        Some(ItemKind::Odd) => Actions::One(Action::Refuse(RefusalReason::Odd)),
    }
}

fn dir_onto(rules: Rules, target: Option<ItemKind>) -> Actions
    ensures { result ≡ dir_onto rules target }
{
    match target {
        None => Actions::One(Action::MakeDir),
        Some(ItemKind::File(_)) => {
            in_place(
                rules.extra,
                Action::RemoveFile,
                Action::MakeDir,
                RefusalReason::File,
            )
        }
        Some(ItemKind::Dir) => Actions::One(Action::Enter),
        Some(ItemKind::Other) => {
            in_place(
                rules.extra,
                Action::RemoveFile,
                Action::MakeDir,
                RefusalReason::Neither,
            )
        }
        Some(ItemKind::Excluded) => Actions::Nothing,
        Some(ItemKind::Odd) => Actions::One(Action::Refuse(RefusalReason::Odd)),
    }
}

/// In the place of something else.
fn in_place(extra: Extra, removal: Action, action: Action, reason: RefusalReason) -> Actions
    ensures { result ≡ in_place extra removal action reason }
{
    match extra {
        Extra::Kept => Actions::One(Action::Refuse(reason)),
        Extra::Removed | Extra::Any => Actions::Two(removal, action),
    }
}

fn file_onto_file(check: Check, way: CopyDirection, source: ItemFacts, target: ItemFacts) -> Actions
    ensures { result ≡ file_onto_file check way source target }
{
    match check {
        Check::ByFacts if differs(way, source, target) => Actions::One(Action::Copy(source)),
        Check::ByFacts => Actions::Nothing,
        Check::ByOctets if differ(source.size, target.size) => Actions::One(Action::Copy(source)),
        Check::ByOctets => Actions::One(Action::Compare(source)),
    }
}

/// Whether a file of the source is another than that of the target.
fn differs(way: CopyDirection, source: ItemFacts, target: ItemFacts) -> bool
    ensures { result ≡ differs way source target }
{
    match way {
        CopyDirection::Down => {
            is_untold(source)
                || differ(source.size, target.size)
                || differ(source.moment, target.moment)
        }
        CopyDirection::Up => {
            is_untold(target)
                || differ(source.size, target.size)
                || is_later(source.moment, target.moment)
        }
    }
}

/// Whether two numbers are known, and not the same.
fn differ(one: Option<u64>, other: Option<u64>) -> bool
    ensures { result ≡ differ one other }
{
    match (one, other) {
        (Some(one), Some(other)) => one != other,
        _ => false,
    }
}

/// Whether two moments are known, and the first is later.
fn is_later(one: Option<u64>, other: Option<u64>) -> bool
    ensures { result ≡ is_later one other }
{
    match (one, other) {
        (Some(one), Some(other)) => one > other,
        _ => false,
    }
}

/// Whether neither size nor moment is known.
fn is_untold(facts: ItemFacts) -> bool
    ensures { result ≡ is_untold facts.size facts.moment }
{
    facts.size.is_none() && facts.moment.is_none()
}

/// What is done of an entry of the target, where this stands under its name in the source.
pub fn removal_for(rules: Rules, item: &ListedItem<Global>, source: Option<ItemKind>) -> Actions
    ensures { result ≡ removal_for rules item.now source }
{
    match source {
        None => alone(rules.extra, item),
        Some(_) => Actions::Nothing,
    }
}

/// An entry that the target has alone.
fn alone(extra: Extra, item: &ListedItem<Global>) -> Actions
    ensures { result ≡ alone extra item.now }
{
    match extra {
        Extra::Kept => Actions::Nothing,
        Extra::Removed | Extra::Any if is_name(item.name.as_slice()) => removal(item.kind),
        Extra::Removed | Extra::Any => Actions::One(Action::Refuse(nameless(item.kind))),
    }
}

fn removal(kind: ItemKind) -> Actions
    ensures { result ≡ removal kind }
{
    match kind {
        ItemKind::File(_) | ItemKind::Other => Actions::One(Action::RemoveFile),
        ItemKind::Dir => Actions::One(Action::RemoveDir),
        ItemKind::Excluded | ItemKind::Odd => Actions::Nothing,
    }
}
