ghost use Rattle.std.specs.Prelude.{◌≤◌, ◌<◌, ◌↔◌, IsTrue};
ghost use Rattle.perform_cycles.specs.Cycles.{AreWithin};

/// From a paragraph to each of a range of paragraphs, all by their numbers from 0.
#[derive(Clone, Copy, Debug, PartialEq, Eq)]
pub struct Arrow {
    pub from: usize,
    /// The first of the range.
    pub first: usize,
    /// The last of the range. A range whose last comes before its first has no paragraph.
    pub last: usize,
}

/// Whether an arrow leads to a paragraph.
pub fn holds(arrow: &Arrow, paragraph: usize) -> bool
    ensures { IsTrue result ↔ ((arrow.now.first ≤ paragraph) × (paragraph ≤ arrow.now.last)) }
{
    arrow.first <= paragraph && paragraph <= arrow.last
}

fn is_within(count: usize, arrow: &Arrow) -> bool
    ensures { IsTrue result ↔ ((arrow.now.from < count) × (arrow.now.last < count)) }
{
    arrow.from < count && arrow.last < count
}

/// Whether arrows go between paragraphs of this count.
pub fn are_within(count: usize, arrows: &[Arrow]) -> bool
    ensures { IsTrue result ↔ AreWithin count arrows.now }
{
    arrows.iter().all(|arrow| is_within(count, arrow))
}
