ghost use Rattle.std.specs.Prelude.{◌≡◌, ◌↔◌, IfOk, IsTrue, map};
ghost use Rattle.data_layout.specs.Rows.{sections};
ghost use Rattle.data_layout.specs.Outcome.{IsLayoutOf};
ghost use Rattle.data_names.specs.Seen.{seen_item};
ghost use Rattle.opening_storage.specs.Filling.{all_hold, holds};
ghost use Rattle.opening_storage.specs.Opening.{CanOpen, IsOpeningOf};

use crate::filling::fill_all;
use crate::values::can_hold;
use cob_base::{ByteText, Front, NoMemory};
use data_layout::{Item, Layout, gather};
use data_names::{KnownItem, facts_of, known_items, value};
use std::alloc::Global;

/// Whether an item can hold its VALUE.
fn does_hold(item: &KnownItem, place: &Item) -> bool
    ensures { result ≡ holds (seen_item item.now) place.now }
{
    can_hold(&place.picture, value(item.source.entry.clauses.as_slice()))
}

/// Whether each item can hold its VALUE, where there is a place for each.
fn do_all_hold(items: &[KnownItem], places: &[Item]) -> bool
    ensures { result ≡ all_hold (map seen_item items.now) places.now }
{
    if items.len() != places.len() {
        return false;
    }
    for (at, item) in items.iter().enumerate() {
        if !does_hold(item, &places[at]) {
            return false;
        }
    }
    true
}

/// Whether each item of a front can open with its VALUE: any item with a text or with ZERO, a numeric or edited item with a number, any
/// other with the other figurative constants.
pub fn can_open(alloc: Global, front: &Front, layout: &Layout) -> Result<bool, NoMemory>
    ensures { IfOk result (λ can. IsTrue can ↔ CanOpen front.now layout.now) }
{
    let gathered = gather(alloc, front)?;
    let items = known_items(
        alloc,
        front,
        gathered.rows.as_slice(),
        gathered.texts.as_slice(),
    )?;
    Ok(do_all_hold(items.as_slice(), layout.items.as_slice()))
}

/// The bytes that the items of a front hold before the first statement. The layout is the front's.
pub fn opening(alloc: Global, front: &Front, layout: &Layout) -> Result<ByteText, NoMemory>
    requires laid_out { IsLayoutOf (sections front.now) layout.now }
    requires held { CanOpen front.now layout.now }
    ensures { IfOk result (λ bytes. IsOpeningOf front.now layout.now bytes) }
{
    let gathered = gather(alloc, front)?;
    let rows = gathered.rows.as_slice();
    let items = known_items(alloc, front, rows, gathered.texts.as_slice())?;
    let facts = facts_of(alloc, items.as_slice(), rows)?;
    let bytes = fill_all(
        alloc,
        items.as_slice(),
        facts.as_slice(),
        layout.items.as_slice(),
    )?;
    Ok(ByteText::from_vec(bytes))
}
