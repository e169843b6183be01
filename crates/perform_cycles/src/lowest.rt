ghost use Rattle.std.specs.Prelude.{◌≡◌, ◌≤◌, ◌<◌, ◌+◌, ◌*◌, ◌%◌, ℕ, List, Some, None, length, slice_index_or, All, IfOk, IsTrue, IfSome};
ghost use Rattle.perform_cycles.specs.Lowest.{IsLow, IsLevel, AreLower, IsLowBlock};

use cob_base::NoMemory;
use std::alloc::Global;

/// The lowest of each block of numbers, where the blocks have one width and stand one behind the other.
#[derive(Drop)]
pub struct Level {
    width: usize,
    lows: Vec<usize>,
}

/// The width of a block of numbers, and the lowest of them.
#[derive(Clone, Copy, Debug)]
struct Block {
    width: usize,
    low: usize,
}

/// Numbers, with the lowest of each block of one, two, four, eight .. of them.
#[derive(Drop)]
pub struct Lowest {
    levels: Vec<Level>,
}

/// The lower one of each two.
fn lower_of_two(alloc: Global, lows: &[usize]) -> Result<Vec<usize>, NoMemory>
    ensures { IfOk result (λ made. AreLower lows.now made.items) }
{
    let mut made = Vec::new(alloc);
    for at in 0..lows.len() / 2 {
        made.push(lows[2 * at].min(lows[2 * at + 1]))?;
    }
    Ok(made)
}

fn twice(width: usize) -> Option<usize>
    ensures { IfSome result (λ wider. wider ≡ width * 2) }
{
    width.checked_mul(2)
}

impl Level {
    /// The lowest of blocks of twice the width.
    fn halved(&self, alloc: Global) -> Result<Level, NoMemory>
        ensures { (numbers : List ℕ) → IsLevel numbers self.now → IfOk result (λ made. IsLevel numbers made) }
    {
        match twice(self.width) {
            Some(width) => Ok(Level {
                width,
                lows: lower_of_two(alloc, self.lows.as_slice())?,
            }),
            None => Ok(Level {
                width: 1,
                lows: Vec::new(alloc),
            }),
        }
    }

    /// The block that begins here, where one does that ends at `end` at most.
    fn block(&self, at: usize, end: usize) -> Option<Block>
        requires { at < end }
        ensures wide { IfSome result (λ block. 0 < block.width) }
        ensures within { IfSome result (λ block. at + block.width ≤ end) }
        ensures low { (numbers : List ℕ) → IsLevel numbers self.now → IsLowBlock numbers at result }
    {
        if self.width == 0 || at % self.width != 0 || end - at < self.width {
            return None;
        }
        match self.lows.get(at / self.width) {
            Some(low) => Some(Block {
                width: self.width,
                low: *low,
            }),
            None => None,
        }
    }
}

impl Lowest {
    /// Those of some numbers.
    pub fn of(alloc: Global, numbers: Vec<usize>) -> Result<Lowest, NoMemory>
        ensures { IfOk result (λ made. All (IsLevel numbers.items) made.levels.items) }
    {
        let mut levels = Vec::new(alloc);
        let mut level = Level {
            width: 1,
            lows: numbers,
        };
        for _ in 0..usize::BITS {
            if level.lows.len() < 2 {
                break;
            }
            let next = level.halved(alloc)?;
            levels.push(level)?;
            level = next;
        }
        levels.push(level)?;
        Ok(Lowest { levels })
    }

    fn block(&self, level: usize, at: usize, end: usize) -> Option<Block>
        requires { at < end }
        ensures wide { IfSome result (λ block. 0 < block.width) }
        ensures within { IfSome result (λ block. at + block.width ≤ end) }
        ensures low { (numbers : List ℕ) → All (IsLevel numbers) self.now.levels.items → IsLowBlock numbers at result }
    {
        if level < self.levels.len() {
            let level = &self.levels[level];
            level.block(at, end)
        } else {
            None
        }
    }

    /// The highest level, from this one down, at which a block begins here that ends at `end` at most.
    fn fitting(&self, level: usize, at: usize, end: usize) -> usize
        requires { at < end }
    {
        let mut level = level;
        while level > 0 && self.block(level, at, end).is_none() {
            level -= 1;
        }
        level
    }

    /// Whether all numbers from the one at `first` to the one before `end` are this number at least.
    pub fn are_at_least(&self, bound: usize, first: usize, end: usize) -> bool
        ensures { (numbers : List ℕ) → All (IsLevel numbers) self.now.levels.items → IsTrue result → (k : ℕ) → first ≤ k → k < end → k < length numbers → bound ≤ slice_index_or numbers k 0 }
    {
        let mut at = first;
        let mut level = 0;
        while at < end {
            level = self.fitting(level, at, end);
            let Some(block) = self.block(level, at, end) else {
                return false;
            };
            if block.low < bound {
                return false;
            }
            at += block.width;
            level = level.saturating_add(1);
        }
        true
    }
}
