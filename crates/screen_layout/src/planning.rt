ghost use Rattle.std.specs.Prelude.{◌≡◌, ℕ, ◌<◌, List, [], ◌∷◌, ◌++◌, Some, IfOk, OnOk, if◌then◌else◌};
ghost use Rattle.picture_rule.specs.Picture.{PictureValue};
ghost use Rattle.screen_layout.specs.Placing.{goes_on, within_look};
ghost use Rattle.screen_rows.specs.Rows.{text_or_none};
ghost use Rattle.screen_layout.specs.Outcome.{IsPlaced, HasItems, ArePlans, plan_of};
ghost use Rattle.screen_layout.specs.Walk.{IsAfter};
ghost use Rattle.screen_layout.specs.Planned.{CanBePlaced, AreSound, with_item, with_items};
ghost use Rattle.screen_layout.specs.Plans.{IsPlanOf};
ghost use Rattle.screen_layout.specs.ScreenFaults.{screen_faults};
ghost use Rattle.data_layout.specs.Rows.{rank};
ghost use Rattle.data_layout.specs.declared.layout.Layout.{Layout};
ghost use Rattle.screen_layout.specs.declared.plan.Placed.{Placed};
ghost use Rattle.std.specs.Prelude.{◌==◌, All, false};
ghost use Rattle.screen_rows.specs.declared.row.Content.{Content};
ghost use Rattle.screen_layout.specs.declared.plan.ScreenPlan.{ScreenPlan};
ghost use Rattle.screen_layout.specs.declared.place.Spot.{Spot};
ghost use Rattle.screen_layout.specs.Placing.{look_of, opened};
ghost use Rattle.screen_rows.specs.Clauses.{plain_look};
ghost use Rattle.screen_rows.specs.declared.row.ScreenRow.{ScreenRow};

use crate::levels::does_go_on;
use crate::looks::{look_within, style_from};
use crate::place::Spot;
use crate::plan::{Placed, ScreenPlan};
use crate::walk::ScreenWalk;
use cob_base::{ByteText, Items, NoMemory};
use data_layout::rank_of;
use picture_rule::Picture;
use screen_rows::{Content, Look, ScreenRow, ScreenRows};
use std::alloc::Global;

/// The marks and colours of the next row, with those of the groups that it is in.
fn look_at(rows: &[ScreenRow], row: &ScreenRow) -> Look
    ensures { (before : List ScreenRow) → rows.now ≡ opened before → result ≡ look_of before row.now }
{
    let mut look = no_look();
    for group in rows {
        look = look_with(look, group, row);
    }
    look_within(look, row.own.look)
}

fn look_with(look: Look, group: &ScreenRow, row: &ScreenRow) -> Look
    ensures { result ≡ (if goes_on group.now row.now then within_look look group.now.own.look else look) }
{
    if does_go_on(group, row) {
        look_within(look, group.own.look)
    } else {
        look
    }
}

fn no_look() -> Look
    ensures { result ≡ plain_look }
{
    Look {
        highlight: false,
        lowlight: false,
        reverse_video: false,
        underline: false,
        blink: false,
        secure: false,
        required: false,
        full: false,
        auto: false,
        front: None,
        back: None,
    }
}

fn number_at(spot: Spot) -> u8
    ensures { (number : ℕ) → spot ≡ Spot.On number → result ≡ number }
{
    match spot {
        Spot::On(number) => number,
        Spot::Off => 0,
        Spot::Unknown => 0,
    }
}

fn cells_of(size: Option<u64>) -> u8
    ensures { (cells : ℕ) → size ≡ Some cells → cells < 256 → result ≡ cells }
{
    match size {
        Some(size) => size.min(255) as u8,
        None => 0,
    }
}

/// The item of the next row.
fn place(alloc: Global, walk: &ScreenWalk, row: &ScreenRow, content: Content) -> Placed
    ensures { (before : List ScreenRow) → IsAfter before walk.now → CanBePlaced before row.now content → IsPlaced before row.now content result }
{
    let start = walk.place(row);
    let Content {
        name: _,
        picture,
        show,
        into,
    } = content;
    Placed {
        line: number_at(start.line),
        column: number_at(start.column),
        size: cells_of(row.size),
        picture: picture_or_none(alloc, picture),
        style: style_from(look_at(walk.rows.as_slice(), row)),
        blank: walk.blanks(row),
        show,
        into,
    }
}

fn picture_or_none(alloc: Global, picture: Option<Picture>) -> Picture
    ensures { (own : PictureValue) → picture ≡ Some own → result ≡ own }
{
    match picture {
        Some(picture) => picture,
        None => Picture::alphanumeric(alloc, 0),
    }
}

fn name_of(alloc: Global, content: &Content) -> Result<ByteText, NoMemory>
    ensures { IfOk result (λ name. name ≡ text_or_none content.now.name) }
{
    match &content.name {
        Some(name) => name.copy(alloc),
        None => ByteText::from_bytes(alloc, &[]),
    }
}

/// Begins a plan.
fn begin(alloc: Global, plans: &mut Items<ScreenPlan>, content: &Content) -> Result<(), NoMemory>
    ensures { OnOk result (plans.new ≡ plans.old ++ plan_of content.now [] ∷ []) }
{
    let name = name_of(alloc, content)?;
    plans.push(ScreenPlan {
        name,
        items: Items::new(alloc),
    })?;
    Ok(())
}

/// Puts an item at the end of the last plan.
fn put(plans: &mut Items<ScreenPlan>, placed: Placed) -> Result<(), NoMemory>
    ensures { (plans_before : List ScreenPlan) (plan : ScreenPlan) → plans.old ≡ plans_before ++ plan ∷ [] → OnOk result (plans.new ≡ plans_before ++ with_item plan placed ∷ []) }
{
    if let Some(plan) = plans.pop() {
        let ScreenPlan { name, mut items } = plan;
        items.push(placed)?;
        plans.push(ScreenPlan { name, items })?;
    }
    Ok(())
}

/// A row of level 01 begins a plan.
fn begin_at(
    alloc: Global,
    plans: &mut Items<ScreenPlan>,
    row: &ScreenRow,
    content: &Content,
) -> Result<(), NoMemory>
    ensures { OnOk result (plans.new ≡ (if rank row.now.level == 1 then plans.old ++ plan_of content.now [] ∷ [] else plans.old)) }
{
    if rank_of(row.level) == 1 {
        begin(alloc, plans, content)?;
    }
    Ok(())
}

/// An item comes into the last plan.
fn put_item(
    alloc: Global,
    plans: &mut Items<ScreenPlan>,
    walk: &ScreenWalk,
    row: &ScreenRow,
    content: Content,
) -> Result<(), NoMemory>
    ensures { (before : List ScreenRow) (first : List ScreenPlan) (plan : ScreenPlan) → IsAfter before walk.now → (row.now.group ≡ false → CanBePlaced before row.now content) → plans.old ≡ first ++ plan ∷ []
        → OnOk result ((own : List Placed) × HasItems row.now.group before row.now content own × (plans.new ≡ first ++ with_items plan own ∷ [])) }
{
    if row.group {
        return Ok(());
    }
    put(plans, place(alloc, walk, row, content))
}

/// The plans of rows that have no fault, one for each row of level 01.
pub fn make_plans(alloc: Global, read: ScreenRows) -> Result<Items<ScreenPlan>, NoMemory>
    ensures { (layout : Layout) → AreSound layout read.rows.items read.contents.items → screen_faults read.rows.items ≡ []
        → IfOk result (λ plans. ArePlans [] read.rows.items read.contents.items [] plans × All (IsPlanOf layout) plans) }
{
    let ScreenRows { rows, contents } = read;
    let mut plans = Items::new(alloc);
    let mut walk = ScreenWalk::new(alloc);
    let mut contents = contents.into_iter();
    for row in rows.as_slice() {
        let Some(content) = contents.next() else {
            return Err(NoMemory);
        };
        begin_at(alloc, &mut plans, row, &content)?;
        put_item(alloc, &mut plans, &walk, row, content)?;
        walk.enter(row)?;
    }
    Ok(plans)
}
