use cob_base::NoMemory;
use std::alloc::Global;

/// The paragraphs that a search has not seen.
#[derive(Drop)]
pub struct Unseen {
    /// For each paragraph one that is not before it, with none unseen between; for an unseen one itself.
    next: Vec<usize>,
}

impl Unseen {
    /// All of so many.
    pub fn all(alloc: Global, count: usize) -> Result<Unseen, NoMemory> {
        let mut next = Vec::new(alloc);
        for at in 0..count {
            next.push(at)?;
        }
        Ok(Unseen { next })
    }

    fn after(&self, at: usize) -> usize {
        self.next.get(at).copied().unwrap_or(at)
    }

    /// The first unseen one from here on; a number past all where there is none.
    pub fn first_from(&mut self, at: usize) -> usize {
        let mut here = at;
        for _ in 0..self.next.len() {
            let next = self.after(here);
            if next == here {
                return here;
            }
            let further = self.after(next);
            if let Some(place) = self.next.get_mut(here) {
                *place = further;
            }
            here = further;
        }
        here
    }

    /// Takes one away.
    pub fn see(&mut self, at: usize) {
        if let Some(place) = self.next.get_mut(at) {
            *place = at.saturating_add(1);
        }
    }
}
