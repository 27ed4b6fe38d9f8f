// What is done of a directory.
ghost use Rattle.std.specs.Prelude.{◌≡◌, ◌++◌, IfOk, OnOk, flat_map};
ghost use Rattle.tool_mirror_plan.specs.Plan.{clearing, clearing_all, copying, guarded, is_odd, is_unnamed, plan, refused, steps, whole_plan};
ghost use Rattle.std.specs.List.{list_any};

use crate::actions::{Action, Actions, Extra, RefusalReason, Rules, actions_for, removal_for};
use crate::index::{kinds_of, stands};
use ftp_facts::Text;
use std::alloc::{AllocError, Allocator, Global};
use tool_listing::{DirectoryListing, ItemKind, ListedItem, is_name};

/// Something that is done of a name.
#[derive(Drop)]
pub struct PlanStep<A: Allocator + Copy> {
    pub action: Action,
    pub name: Text<A>,
}

/// What a mirror does of a directory, by the listing of the source and that of the target: first of each entry of the source, and then of each of
/// the target, both in their orders. Where one of both is cut off, nothing is done.
pub fn plan(
    alloc: Global,
    rules: Rules,
    source: &DirectoryListing<Global>,
    target: &DirectoryListing<Global>,
) -> Result<Vec<PlanStep<Global>, Global>, AllocError>
    // Witness: an equation, where memory is not refused.
    ensures { IfOk result (λ planned. planned.items ≡ plan rules source.now target.now) }
{
    match (source, target) {
        (DirectoryListing::Whole(source), DirectoryListing::Whole(target)) => {
            whole_plan(alloc, rules, source.as_slice(), target.as_slice())
        }
        _ => refused(alloc, RefusalReason::CutOff),
    }
}

/// The same of whole listings.
fn whole_plan(
    alloc: Global,
    rules: Rules,
    source: &[ListedItem<Global>],
    target: &[ListedItem<Global>],
) -> Result<Vec<PlanStep<Global>, Global>, AllocError>
    ensures { IfOk result (λ planned. planned.items ≡ whole_plan rules source.now target.now) }
{
    let mut planned = Vec::new(alloc);
    put_copying(alloc, rules, source, target, &mut planned)?;
    put_clearing_all(alloc, rules, source, target, &mut planned)?;
    guarded(alloc, rules.extra, source, planned)
}

/// What was planned; where the source lists nothing, what would be removed stays, and that is told.
fn guarded(
    alloc: Global,
    extra: Extra,
    source: &[ListedItem<Global>],
    planned: Vec<PlanStep<Global>, Global>,
) -> Result<Vec<PlanStep<Global>, Global>, AllocError>
    ensures { IfOk result (λ kept. kept.items ≡ guarded extra source.now planned.items) }
{
    if matches!(extra, Extra::Removed) && source.is_empty() && !planned.is_empty() {
        return refused(alloc, RefusalReason::Emptied(planned.len()));
    }
    Ok(planned)
}

/// That nothing is done of a directory.
fn refused(
    alloc: Global,
    reason: RefusalReason,
) -> Result<Vec<PlanStep<Global>, Global>, AllocError>
    ensures { IfOk result (λ planned. planned.items ≡ refused reason) }
{
    let mut planned = Vec::new(alloc);
    put_step(alloc, b"", Action::Refuse(reason), &mut planned)?;
    Ok(planned)
}

fn put_copying(
    alloc: Global,
    rules: Rules,
    source: &[ListedItem<Global>],
    target: &[ListedItem<Global>],
    planned: &mut Vec<PlanStep<Global>, Global>,
) -> Result<(), AllocError>
    ensures { OnOk result (planned.new.items ≡ planned.old.items ++ flat_map (copying rules target.now) source.now) }
{
    let kinds = kinds_of(alloc, target)?;
    for item in source {
        let name = item.name.as_slice();
        let actions = actions_for(rules, item, stands(&kinds, name));
        put_steps(alloc, name, actions, planned)?;
    }
    Ok(())
}

/// Whether a line of a listing is no entry and tells no name: whatever stands in the target may be it.
fn has_unnamed(source: &[ListedItem<Global>]) -> bool
    ensures { result ≡ list_any is_unnamed source.now }
{
    source.iter().any(|item| is_unnamed(item))
}

fn is_unnamed(item: &ListedItem<Global>) -> bool
    ensures { result ≡ is_unnamed item.now }
{
    is_odd(item.kind) && !is_name(item.name.as_slice())
}

fn is_odd(kind: ItemKind) -> bool
    ensures { result ≡ is_odd kind }
{
    matches!(kind, ItemKind::Odd)
}

/// What is done of all entries of the target: nothing where the source has a line that tells no name.
fn put_clearing_all(
    alloc: Global,
    rules: Rules,
    source: &[ListedItem<Global>],
    target: &[ListedItem<Global>],
    planned: &mut Vec<PlanStep<Global>, Global>,
) -> Result<(), AllocError>
    ensures { OnOk result (planned.new.items ≡ planned.old.items ++ clearing_all rules source.now target.now) }
{
    if has_unnamed(source) {
        return Ok(());
    }
    put_clearing(alloc, rules, source, target, planned)
}

fn put_clearing(
    alloc: Global,
    rules: Rules,
    source: &[ListedItem<Global>],
    target: &[ListedItem<Global>],
    planned: &mut Vec<PlanStep<Global>, Global>,
) -> Result<(), AllocError>
    ensures { OnOk result (planned.new.items ≡ planned.old.items ++ flat_map (clearing rules source.now) target.now) }
{
    let kinds = kinds_of(alloc, source)?;
    for item in target {
        let name = item.name.as_slice();
        let actions = removal_for(rules, item, stands(&kinds, name));
        put_steps(alloc, name, actions, planned)?;
    }
    Ok(())
}

fn put_steps(
    alloc: Global,
    name: &[u8],
    actions: Actions,
    planned: &mut Vec<PlanStep<Global>, Global>,
) -> Result<(), AllocError>
    ensures { OnOk result (planned.new.items ≡ planned.old.items ++ steps name.now actions) }
{
    match actions {
        Actions::Nothing => Ok(()),
        Actions::One(action) => put_step(alloc, name, action, planned),
        Actions::Two(first, second) => {
            put_step(alloc, name, first, planned)?;
            put_step(alloc, name, second, planned)
        }
    }
}

fn put_step(
    alloc: Global,
    name: &[u8],
    action: Action,
    planned: &mut Vec<PlanStep<Global>, Global>,
) -> Result<(), AllocError>
    ensures { OnOk result (planned.new.items ≡ planned.old.items ++ steps name.now (Actions.One action)) }
{
    let name = Text::copy_of(alloc, name)?;
    planned.push(PlanStep { action, name })?;
    Ok(())
}
