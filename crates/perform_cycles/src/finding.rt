ghost use Rattle.std.specs.Prelude.{◌≡◌, ◌≤◌, ◌<◌, ◌+◌, ◌⊎◌, ◌↔◌, ℕ, List, Some, true, map, length, slice_get, All, Contains, IfOk, IfSome, IsTrue};
ghost use Rattle.perform_cycles.specs.Cycles.{IsStep};
ghost use Rattle.perform_cycles.specs.Finding.{IsPlace, IsOfGroup, IsReached, GoesOn, IsCyclic, IsShown, IsRight, IsAscending, IsAbove, bound_of};
ghost use Rattle.perform_cycles.specs.Lowest.{IsLevel};
ghost use Rattle.perform_cycles.specs.declared.finding.Place.{Place};

use crate::arrows::{Arrow, holds};
use crate::lowest::Lowest;
use cob_base::NoMemory;
use std::alloc::Global;

/// A step by an arrow.
#[derive(Clone, Copy, Debug, PartialEq, Eq)]
pub struct Step {
    /// The arrow's number.
    pub arrow: usize,
    /// The paragraph to which it leads.
    pub to: usize,
}

/// What a search found of a paragraph. It belongs to a group; where it is on a cycle, so are all of its group, and each of them leads to
/// each other.
#[derive(Clone, Copy, Debug)]
pub struct Place {
    /// The number of its group. No arrow leads to a group of a lower number.
    pub group: usize,
    /// The paragraph that stands for its group.
    pub root: usize,
    /// Whether it is on a cycle.
    pub cyclic: bool,
    /// The arrow by which it was first seen; on a cycle it leads here from one of the group that was seen before.
    pub reached_by: Option<usize>,
    /// When it was first seen.
    pub seen: usize,
    /// A step to one of the group that was taken before, and so nearer to the root; from the root to any of the group.
    pub onward: Option<Step>,
    /// When it was taken into the group.
    pub taken: usize,
}

/// What was found of a paragraph, where that is on a cycle of a group.
fn of_group(places: &[Place], root: usize, paragraph: usize) -> Option<Place>
    ensures { (found : Place) → result ≡ Some found → IsOfGroup places.now root paragraph found }
{
    match places.get(paragraph) {
        Some(place) => if place.cyclic && place.root == root {
            Some(*place)
        } else {
            None
        },
        None => None,
    }
}

/// Whether an arrow leads to a paragraph from one of its group that was seen before.
fn reaches(arrow: &Arrow, places: &[Place], paragraph: usize, place: &Place) -> bool
    ensures { (arrows : List Arrow) → Contains arrows arrow.now → IsTrue result → IsReached arrows places.now paragraph place.now }
{
    match of_group(places, place.root, arrow.from) {
        Some(found) => holds(arrow, paragraph) && found.seen < place.seen,
        None => false,
    }
}

/// Whether a paragraph is led to by one of its group that was seen before.
fn is_reached(arrows: &[Arrow], places: &[Place], paragraph: usize, place: &Place) -> bool
    ensures { IsTrue result → IsReached arrows.now places.now paragraph place.now }
{
    let Some(number) = place.reached_by else {
        return false;
    };
    match arrows.get(number) {
        Some(arrow) => reaches(arrow, places, paragraph, place),
        None => false,
    }
}

fn is_nearer(paragraph: usize, place: &Place, found: Place) -> bool
    ensures { IsTrue result → (paragraph ≡ place.now.root) ⊎ (found.taken < place.now.taken) }
{
    paragraph == place.root || found.taken < place.taken
}

/// Whether an arrow leads from a paragraph to one of its group, which was taken before unless the paragraph is the root.
fn leads_on(arrow: &Arrow, places: &[Place], paragraph: usize, place: &Place, to: usize) -> bool
    ensures { (arrows : List Arrow) → Contains arrows arrow.now → IsTrue result → GoesOn arrows places.now paragraph place.now }
{
    match of_group(places, place.root, to) {
        Some(found) => arrow.from == paragraph
            && holds(arrow, to)
            && is_nearer(paragraph, place, found),
        None => false,
    }
}

/// Whether a paragraph has a step to one of its group.
fn goes_on(arrows: &[Arrow], places: &[Place], paragraph: usize, place: &Place) -> bool
    ensures { IsTrue result → GoesOn arrows.now places.now paragraph place.now }
{
    let Some(step) = place.onward else {
        return false;
    };
    match arrows.get(step.arrow) {
        Some(arrow) => leads_on(arrow, places, paragraph, place, step.to),
        None => false,
    }
}

/// Whether a paragraph is the root of its group, or led to by one of it that was seen before.
fn is_root_or_reached(arrows: &[Arrow], places: &[Place], paragraph: usize, place: &Place) -> bool
    ensures { IsTrue result → (paragraph ≡ place.now.root) ⊎ IsReached arrows.now places.now paragraph place.now }
{
    paragraph == place.root || is_reached(arrows, places, paragraph, place)
}

/// Whether what was found shows that a paragraph is on a cycle.
fn is_cyclic(arrows: &[Arrow], places: &[Place], paragraph: usize, place: &Place) -> bool
    ensures { IsTrue result → IsCyclic arrows.now places.now paragraph place.now }
{
    match of_group(places, place.root, place.root) {
        Some(_) => goes_on(arrows, places, paragraph, place)
            && is_root_or_reached(arrows, places, paragraph, place),
        None => false,
    }
}

/// Whether what was found shows that a paragraph is on a cycle, where it says so.
fn is_shown(arrows: &[Arrow], places: &[Place], paragraph: usize, place: &Place) -> bool
    ensures { IsTrue result → place.now.cyclic ≡ true → IsCyclic arrows.now places.now paragraph place.now }
{
    !place.cyclic || is_cyclic(arrows, places, paragraph, place)
}

fn are_shown(arrows: &[Arrow], places: &[Place]) -> bool
    ensures { IsTrue result → (paragraph : ℕ) → IsShown arrows.now places.now paragraph }
{
    for (paragraph, place) in places.iter().enumerate() {
        if !is_shown(arrows, places, paragraph, place) {
            return false;
        }
    }
    true
}

fn groups_of(alloc: Global, places: &[Place]) -> Result<Vec<usize>, NoMemory>
    ensures { IfOk result (λ groups. groups.items ≡ map (λ place. place.group) places.now) }
{
    Ok(places.iter().map(|place| place.group).collect(alloc)?)
}

/// The lowest group to which an arrow from here may lead; None where that is no number.
fn bound_of(place: Place) -> Option<usize>
    ensures { IfSome result (λ bound. bound ≡ bound_of place) }
{
    if place.cyclic {
        Some(place.group)
    } else {
        place.group.checked_add(1)
    }
}

/// The number after the last of an arrow's range; None where that is no number.
fn end_of(arrow: &Arrow) -> Option<usize>
    ensures { IfSome result (λ end. end ≡ arrow.now.last + 1) }
{
    arrow.last.checked_add(1)
}

/// Whether the paragraphs of an arrow's range are of groups of this number at least.
fn leads_above(arrow: &Arrow, lowest: &Lowest, low: usize) -> bool
    ensures { (places : List Place) → All (IsLevel (map (λ place. place.group) places)) lowest.now.levels.items → IsTrue result → IsAbove places arrow.now low }
{
    match end_of(arrow) {
        Some(end) => lowest.are_at_least(low, arrow.first, end),
        None => false,
    }
}

fn leads_above_bound(arrow: &Arrow, lowest: &Lowest, place: Place) -> bool
    ensures { (places : List Place) → All (IsLevel (map (λ place. place.group) places)) lowest.now.levels.items → IsTrue result → IsAbove places arrow.now (bound_of place) }
{
    match bound_of(place) {
        Some(low) => leads_above(arrow, lowest, low),
        None => false,
    }
}

/// Whether an arrow leads to no group of a lower number, and from a paragraph that is on no cycle not to its own group.
fn is_ascending(arrow: &Arrow, places: &[Place], lowest: &Lowest) -> bool
    ensures { All (IsLevel (map (λ place. place.group) places.now)) lowest.now.levels.items → IsTrue result → IsAscending places.now arrow.now }
{
    match places.get(arrow.from) {
        Some(place) => leads_above_bound(arrow, lowest, *place),
        None => false,
    }
}

fn are_ascending(arrows: &[Arrow], places: &[Place], lowest: &Lowest) -> bool
    ensures { All (IsLevel (map (λ place. place.group) places.now)) lowest.now.levels.items → IsTrue result → All (IsAscending places.now) arrows.now }
{
    for arrow in arrows {
        if !is_ascending(arrow, places, lowest) {
            return false;
        }
    }
    true
}

/// Whether what was found is shown to be right.
pub fn is_right(alloc: Global, arrows: &[Arrow], places: &[Place]) -> Result<bool, NoMemory>
    ensures { IfOk result (λ right. IsTrue right → IsRight arrows.now places.now) }
{
    let lowest = Lowest::of(alloc, groups_of(alloc, places)?)?;
    Ok(are_shown(arrows, places) && are_ascending(arrows, places, &lowest))
}
