use crate::arrows::Arrow;
use crate::finding::{Place, Step};
use crate::segment_tree::SegmentTree;
use crate::unseen::Unseen;
use cob_base::NoMemory;
use std::alloc::Global;

/// What a search knows of a paragraph.
const UNKNOWN: Place = Place {
    group: 0,
    root: usize::MAX,
    cyclic: false,
    reached_by: None,
    seen: 0,
    onward: None,
    taken: 0,
};

/// A search along the arrows: each paragraph is left when all to which it leads were seen.
#[derive(Drop)]
struct Forth<'a> {
    arrows: &'a [Arrow],
    /// The number of the arrow of each paragraph that is tried next.
    arrow_of: Vec<Option<usize>>,
    /// The number of the next arrow of the same paragraph.
    next_of: Vec<Option<usize>>,
    unseen: Unseen,
    places: Vec<Place>,
    /// The paragraphs that were seen and not left.
    open: Vec<usize>,
    /// The paragraphs that were left, in this order.
    left: Vec<usize>,
}

impl<'a> Forth<'a> {
    fn new(alloc: Global, count: usize, arrows: &'a [Arrow]) -> Result<Forth<'a>, NoMemory> {
        let mut arrow_of = vec![in alloc; None; count]?;
        let mut next_of = Vec::new(alloc);
        for (number, arrow) in arrows.iter().enumerate() {
            let first = arrow_of.get(arrow.from).copied().unwrap_or(None);
            next_of.push(first)?;
            if let Some(place) = arrow_of.get_mut(arrow.from) {
                *place = Some(number);
            }
        }
        Ok(Forth {
            arrows,
            arrow_of,
            next_of,
            unseen: Unseen::all(alloc, count)?,
            places: vec![in alloc; UNKNOWN; count]?,
            open: Vec::new(alloc),
            left: Vec::new(alloc),
        })
    }

    /// Sees a paragraph, by an arrow or as the first.
    fn see(
        &mut self,
        paragraph: usize,
        reached_by: Option<usize>,
        seen: usize,
    ) -> Result<(), NoMemory> {
        self.unseen.see(paragraph);
        if let Some(place) = self.places.get_mut(paragraph) {
            place.reached_by = reached_by;
            place.seen = seen;
        }
        self.open.push(paragraph)?;
        Ok(())
    }

    /// Tries the next arrow of the paragraph that is open last: sees a paragraph to which it leads, or turns to the next arrow.
    fn try_arrow(&mut self, paragraph: usize, number: usize, seen: usize) -> Result<(), NoMemory> {
        let Some(Arrow { first, last, .. }) = self.arrows.get(number).copied() else {
            return Ok(());
        };
        let next = self.unseen.first_from(first);
        if next <= last && next < self.places.len() {
            return self.see(next, Some(number), seen);
        }
        if let Some(place) = self.arrow_of.get_mut(paragraph) {
            *place = self.next_of.get(number).copied().unwrap_or(None);
        }
        Ok(())
    }

    /// Goes one step on: sees a paragraph, turns to an arrow, or leaves a paragraph. The result says whether there was one to go.
    fn go_on(&mut self, seen: usize) -> Result<bool, NoMemory> {
        let Some(paragraph) = self.open.last().copied() else {
            let first = self.unseen.first_from(0);
            if first < self.places.len() {
                self.see(first, None, seen)?;
                return Ok(true);
            }
            return Ok(false);
        };
        match self.arrow_of.get(paragraph).copied().unwrap_or(None) {
            Some(number) => self.try_arrow(paragraph, number, seen)?,
            None => {
                self.open.pop();
                self.left.push(paragraph)?;
            }
        }
        Ok(true)
    }
}

/// A search against the arrows, which takes paragraphs into groups.
#[derive(Drop)]
struct Back<'a> {
    arrows: &'a [Arrow],
    ranges: SegmentTree,
    places: Vec<Place>,
    /// The paragraphs of the group that were taken, and of which the arrows that lead to them were not looked at.
    open: Vec<usize>,
    /// How many were taken.
    taken: usize,
}

impl Back<'_> {
    fn is_taken(&self, paragraph: usize) -> bool {
        match self.places.get(paragraph) {
            Some(place) => place.root != usize::MAX,
            None => true,
        }
    }

    fn take(
        &mut self,
        paragraph: usize,
        group: usize,
        root: usize,
        onward: Option<Step>,
    ) -> Result<(), NoMemory> {
        self.taken = self.taken.saturating_add(1);
        if let Some(place) = self.places.get_mut(paragraph) {
            place.group = group;
            place.root = root;
            place.onward = onward;
            place.taken = self.taken;
        }
        self.open.push(paragraph)?;
        Ok(())
    }

    /// Looks at an arrow that leads to a paragraph of the group.
    fn look_at(
        &mut self,
        number: usize,
        to: usize,
        group: usize,
        root: usize,
    ) -> Result<(), NoMemory> {
        let Some(Arrow { from, .. }) = self.arrows.get(number).copied() else {
            return Ok(());
        };
        let step = Step { arrow: number, to };
        if !self.is_taken(from) {
            return self.take(from, group, root, Some(step));
        }
        if from == root {
            if let Some(place) = self.places.get_mut(root) {
                place.onward = place.onward.or(Some(step));
            }
        }
        Ok(())
    }

    /// Takes all of the group of a paragraph that was not taken.
    fn take_group(&mut self, alloc: Global, root: usize, group: usize) -> Result<(), NoMemory> {
        self.take(root, group, root, None)?;
        for _ in 0..self.places.len() {
            let Some(paragraph) = self.open.pop() else {
                return Ok(());
            };
            let ranges = self.ranges.take(alloc, paragraph)?;
            for number in ranges.as_slice() {
                self.look_at(*number, paragraph, group, root)?;
            }
        }
        Ok(())
    }
}

fn ranges_of(alloc: Global, count: usize, arrows: &[Arrow]) -> Result<SegmentTree, NoMemory> {
    let mut ranges = SegmentTree::new(alloc, count)?;
    for (number, arrow) in arrows.iter().enumerate() {
        ranges.add(number, arrow.first, arrow.last.saturating_add(1))?;
    }
    Ok(ranges)
}

/// Marks the paragraphs whose root goes on within its group.
fn mark_cyclic(places: &mut [Place]) {
    for at in 0..places.len() {
        let root = places[at].root;
        let cyclic = match places.get(root) {
            Some(place) => place.onward.is_some(),
            None => false,
        };
        places[at].cyclic = cyclic;
    }
}

/// What a search finds of each of so many paragraphs. Nothing is promised of it.
pub fn search(alloc: Global, count: usize, arrows: &[Arrow]) -> Result<Vec<Place>, NoMemory> {
    let mut forth = Forth::new(alloc, count, arrows)?;
    let limit = count.saturating_mul(2).saturating_add(arrows.len());
    for seen in 0..limit {
        if !forth.go_on(seen)? {
            break;
        }
    }
    let Forth { places, left, .. } = forth;
    let mut back = Back {
        arrows,
        ranges: ranges_of(alloc, count, arrows)?,
        places,
        open: Vec::new(alloc),
        taken: 0,
    };
    for (group, paragraph) in left.iter().rev().enumerate() {
        if !back.is_taken(*paragraph) {
            back.take_group(alloc, *paragraph, group)?;
        }
    }
    mark_cyclic(back.places.as_mut_slice());
    Ok(back.places)
}
