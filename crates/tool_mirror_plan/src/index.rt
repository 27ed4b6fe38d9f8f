// What stands under the names of a directory, found by a name in a time that grows with the logarithm of their number.
ghost use Rattle.std.specs.Prelude.{◌≡◌, ℕ, List, IfOk, OnOk};
ghost use Rattle.tool_mirror_plan.specs.Index.{Indexes, earlier, found, kind_under};

use std::alloc::{AllocError, Global};
use std::collections::BTreeMap;
use tool_listing::{ItemKind, ListedItem};

/// What stands under each name of a directory: where several entries have one name, what the first is.
pub(crate) fn kinds_of<'a>(
    alloc: Global,
    items: &'a [ListedItem<Global>],
) -> Result<BTreeMap<&'a [u8], ItemKind, Global>, AllocError>
    ensures { IfOk result (λ kinds. Indexes kinds items.now) }
{
    let mut kinds: BTreeMap<&'a [u8], ItemKind, Global> = BTreeMap::new(alloc);
    for item in items {
        put_first(&mut kinds, item)?;
    }
    Ok(kinds)
}

/// Puts an entry, unless another one of its name is there.
fn put_first<'a>(
    kinds: &mut BTreeMap<&'a [u8], ItemKind, Global>,
    item: &'a ListedItem<Global>,
) -> Result<(), AllocError>
    ensures { OnOk result ((name : List ℕ) → found kinds.new name ≡ earlier (found kinds.old name) (kind_under name item.now)) }
{
    let name = item.name.as_slice();
    if stands(kinds, name).is_none() {
        kinds.insert(name, item.kind)?;
    }
    Ok(())
}

/// What stands under a name.
pub(crate) fn stands(kinds: &BTreeMap<&[u8], ItemKind, Global>, name: &[u8]) -> Option<ItemKind>
    ensures { result ≡ found kinds.now name.now }
{
    kinds.get(name).copied()
}
