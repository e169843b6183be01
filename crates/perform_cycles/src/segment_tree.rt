use cob_base::NoMemory;
use std::alloc::Global;

/// Ranges of paragraphs, by the paragraphs that they hold: a tree whose leaves are the paragraphs, with each range at few nodes that
/// hold together what it holds. Nodes are numbered from 1; the two under a node have twice its number and one more.
#[derive(Drop)]
pub struct SegmentTree {
    /// How many leaves there are.
    leaves: usize,
    /// The numbers of the ranges at each node.
    nodes: Vec<Vec<usize>>,
}

impl SegmentTree {
    /// No range over so many paragraphs.
    pub fn new(alloc: Global, count: usize) -> Result<SegmentTree, NoMemory> {
        let mut nodes = Vec::new(alloc);
        for _ in 0..count.saturating_mul(2) {
            nodes.push(Vec::new(alloc))?;
        }
        Ok(SegmentTree {
            leaves: count,
            nodes,
        })
    }

    fn put(&mut self, node: usize, range: usize) -> Result<(), NoMemory> {
        if let Some(ranges) = self.nodes.get_mut(node) {
            ranges.push(range)?;
        }
        Ok(())
    }

    /// Takes in a range by its number, its first paragraph and the one after its last.
    pub fn add(&mut self, range: usize, first: usize, end: usize) -> Result<(), NoMemory> {
        let mut low = first.saturating_add(self.leaves);
        let mut high = end.saturating_add(self.leaves);
        while low < high {
            if low % 2 == 1 {
                self.put(low, range)?;
                low = low.saturating_add(1);
            }
            if high % 2 == 1 {
                self.put(high - 1, range)?;
            }
            low /= 2;
            high /= 2;
        }
        Ok(())
    }

    /// Takes out the ranges at the nodes above a paragraph, which are all that hold it; a range may come more than once.
    pub fn take(&mut self, alloc: Global, paragraph: usize) -> Result<Vec<usize>, NoMemory> {
        let mut taken = Vec::new(alloc);
        let mut node = paragraph.saturating_add(self.leaves);
        while node > 0 {
            if let Some(ranges) = self.nodes.get_mut(node) {
                taken.append(ranges)?;
            }
            node /= 2;
        }
        Ok(taken)
    }
}
