ghost use Rattle.std.specs.Prelude.{◌≡◌, ℕ, List, [], ◌∷◌, ◌≤◌, ◌+◌, All, IfOk, IfErr, MatchResult, ◌⊎◌};
ghost use Rattle.data_layout.specs.Rows.{sections};
ghost use Rattle.data_layout.specs.Faults.{layout_faults, IsLeast};
ghost use Rattle.data_layout.specs.Layout.{IsLayout};
ghost use Rattle.data_layout.specs.Outcome.{IsLayoutOf, IsFaultOf};
ghost use Rattle.data_layout.specs.declared.fault.LayoutFault.{LayoutFault};
ghost use Rattle.data_layout.specs.declared.fault.LayoutFault.TheVariants as faults;

use crate::fault::LayoutFault;
use crate::judging::least_fault;
use crate::placing::place;
use crate::reading::{Gathered, gather};
use cob_base::{ByteText, Front, Items, Line};
use picture_rule::Picture;
use std::alloc::Global;

/// An item of the data division and its place.
#[derive(Debug, Drop)]
pub struct Item {
    /// The line of its entry's first word.
    pub line: Line,
    /// None where the name is absent or FILLER.
    pub name: Option<ByteText>,
    /// 1 to 49, or 77.
    pub level: u8,
    /// The number of the group that it is a member of, among the items.
    pub parent: Option<u32>,
    /// Where its first occurrence begins, in bytes from the start of storage.
    pub offset: u32,
    /// How many bytes one occurrence has.
    pub size: u32,
    /// The number after OCCURS, or 0 without such a clause.
    pub occurs: u32,
    /// What its PICTURE and SIGN clauses say, or the picture of a group.
    pub picture: Picture,
}

/// The items of a data division in the order of their entries, and how many bytes they have in all.
#[derive(Debug, Drop)]
pub struct Layout {
    pub items: Items<Item>,
    pub total: u32,
}

/// Lays out the data items of a program: first the records of the files in order, then working storage. An 88 entry is no item.
pub fn lay_out(alloc: Global, front: &Front) -> Result<Layout, LayoutFault>
    ensures layout { IfOk result (λ layout. IsLayoutOf (sections front.now) layout) }
    ensures fault { IfErr result (λ fault. (fault ≡ faults.NoMemory) ⊎ IsFaultOf (sections front.now) fault) }
{
    let Gathered {
        rows,
        texts,
        strays,
    } = gather(alloc, front)?;
    match least_fault(alloc, strays.as_slice(), rows.as_slice())? {
        Some(fault) => Err(fault),
        None => Ok(place(alloc, rows.as_slice(), texts)?),
    }
}
