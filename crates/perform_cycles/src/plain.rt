ghost use Rattle.std.specs.Prelude.{◌≡◌, ◌⊎◌, ◌↔◌, ◌<◌, ◌≤◌, not, List, Bool, ℕ, length, count_by, slice_get, Some, true, IfOk, IsTrue};
ghost use Rattle.perform_cycles.specs.Cycles.{IsStep, IsOnCycle, AreWithin, AreMarks};
ghost use Rattle.perform_cycles.specs.Plain.{IsMarked, IsLedTo, IsSpread, AreFirst, AreReached};

use crate::arrows::{Arrow, holds};
use cob_base::NoMemory;
use std::alloc::Global;

fn is_marked(marks: &[bool], paragraph: usize) -> bool
    ensures { IsTrue result ↔ IsMarked marks.now paragraph }
{
    match marks.get(paragraph) {
        Some(mark) => *mark,
        None => false,
    }
}

/// Whether an arrow leads to a paragraph from a marked one.
fn leads_from_marked(arrow: &Arrow, marks: &[bool], there: usize) -> bool
    ensures { IsTrue result ↔ (IsMarked marks.now arrow.now.from × (arrow.now.first ≤ there) × (there ≤ arrow.now.last)) }
{
    is_marked(marks, arrow.from) && holds(arrow, there)
}

/// Whether a step leads to a paragraph from a marked one.
fn is_led_to(arrows: &[Arrow], marks: &[bool], there: usize) -> bool
    ensures { IsTrue result ↔ IsLedTo arrows.now marks.now there }
{
    arrows
        .iter()
        .any(|arrow| leads_from_marked(arrow, marks, there))
}

fn is_in_spread(arrows: &[Arrow], marks: &[bool], there: usize) -> bool
    ensures { IsTrue result ↔ (IsMarked marks.now there ⊎ IsLedTo arrows.now marks.now there) }
{
    is_marked(marks, there) || is_led_to(arrows, marks, there)
}

/// The marks of some paragraphs and of those to which a step leads from them.
fn spread(alloc: Global, arrows: &[Arrow], marks: &[bool]) -> Result<Vec<bool>, NoMemory>
    ensures { IfOk result (λ new. IsSpread arrows.now marks.now new.items) }
{
    let mut new = Vec::new(alloc);
    for there in 0..marks.len() {
        new.push(is_in_spread(arrows, marks, there))?;
    }
    Ok(new)
}

fn leads_from(arrow: &Arrow, here: usize, there: usize) -> bool
    ensures { IsTrue result ↔ ((arrow.now.from ≡ here) × (arrow.now.first ≤ there) × (there ≤ arrow.now.last)) }
{
    arrow.from == here && holds(arrow, there)
}

/// Whether a step leads from one paragraph to another.
fn is_step(arrows: &[Arrow], here: usize, there: usize) -> bool
    ensures { IsTrue result ↔ IsStep arrows.now here there }
{
    arrows.iter().any(|arrow| leads_from(arrow, here, there))
}

/// The marks of those to which a step leads from a paragraph.
fn first_marks(
    alloc: Global,
    count: usize,
    arrows: &[Arrow],
    here: usize,
) -> Result<Vec<bool>, NoMemory>
    ensures { IfOk result (λ marks. AreFirst count arrows.now here marks.items) }
{
    let mut marks = Vec::new(alloc);
    for there in 0..count {
        marks.push(is_step(arrows, here, there))?;
    }
    Ok(marks)
}

/// How many paragraphs have no mark.
fn count_unmarked(marks: &[bool]) -> usize
    ensures { result ≡ count_by not marks.now }
{
    marks.iter().filter(|mark| !**mark).count()
}

/// Whether a paragraph leads back to itself: what it leads to is marked, step by step, until no step leads to a further one.
fn leads_back(
    alloc: Global,
    count: usize,
    arrows: &[Arrow],
    paragraph: usize,
) -> Result<bool, NoMemory>
    requires within { AreWithin count arrows.now }
    requires among { paragraph < count }
    ensures { IfOk result (λ back. IsTrue back ↔ IsOnCycle arrows.now paragraph) }
{
    let mut marks = first_marks(alloc, count, arrows, paragraph)?;
    let mut unmarked = count_unmarked(marks.as_slice());
    loop {
        let next = spread(alloc, arrows, marks.as_slice())?;
        let left = count_unmarked(next.as_slice());
        if unmarked <= left {
            return Ok(is_marked(marks.as_slice(), paragraph));
        }
        marks = next;
        unmarked = left;
    }
}

/// A mark for each paragraph, set where it leads back to itself: one paragraph after the other.
pub fn on_cycles_one_by_one(
    alloc: Global,
    count: usize,
    arrows: &[Arrow],
) -> Result<Vec<bool>, NoMemory>
    requires { AreWithin count arrows.now }
    ensures { IfOk result (λ marks. AreMarks count arrows.now marks.items) }
{
    let mut marks = Vec::new(alloc);
    for paragraph in 0..count {
        marks.push(leads_back(alloc, count, arrows, paragraph)?)?;
    }
    Ok(marks)
}
