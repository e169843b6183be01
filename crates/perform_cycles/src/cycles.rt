ghost use Rattle.std.specs.Prelude.{◌≡◌, map, IfOk, IfSome};
ghost use Rattle.perform_cycles.specs.Cycles.{AreWithin, AreMarks};

use crate::arrows::Arrow;
use crate::finding::{Place, is_right};
use crate::plain::on_cycles_one_by_one;
use crate::search::search;
use cob_base::NoMemory;
use std::alloc::Global;

fn marks_of(alloc: Global, places: &[Place]) -> Result<Vec<bool>, NoMemory>
    ensures { IfOk result (λ marks. marks.items ≡ map (λ place. place.cyclic) places.now) }
{
    Ok(places.iter().map(|place| place.cyclic).collect(alloc)?)
}

/// The marks of what a search found, where it is shown to be right.
fn shown_marks(
    alloc: Global,
    count: usize,
    arrows: &[Arrow],
    places: &[Place],
) -> Result<Option<Vec<bool>>, NoMemory>
    ensures { IfOk result (λ marks. IfSome marks (λ shown. AreMarks count arrows.now shown.items)) }
{
    if places.len() != count {
        return Ok(None);
    }
    if !is_right(alloc, arrows, places)? {
        return Ok(None);
    }
    let marks = marks_of(alloc, places)?;
    Ok(Some(marks))
}

/// A mark for each of so many paragraphs, set where it leads back to itself by arrows, which go between these paragraphs.
///
/// A search finds the marks, and with each a reason. The reasons are tested;
/// should they not hold, each paragraph is looked at by itself.
pub fn on_cycles(alloc: Global, count: usize, arrows: &[Arrow]) -> Result<Vec<bool>, NoMemory>
    requires { AreWithin count arrows.now }
    ensures { IfOk result (λ marks. AreMarks count arrows.now marks.items) }
{
    let places = search(alloc, count, arrows)?;
    match shown_marks(alloc, count, arrows, places.as_slice())? {
        Some(marks) => Ok(marks),
        None => on_cycles_one_by_one(alloc, count, arrows),
    }
}
