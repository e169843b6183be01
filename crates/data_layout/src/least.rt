ghost use Rattle.std.specs.Prelude.{◌≡◌, ℕ, List, [], ◌∷◌, ◌++◌, map, Option, Bool, ◌⊎◌, ◌↔◌, IsTrue, IsSome};
ghost use Rattle.cob_base.specs.declared.line.Line.{Line};
ghost use Rattle.data_layout.specs.declared.fault.LayoutFault.{LayoutFault};
ghost use Rattle.data_layout.specs.Faults.{IsNoLater, fault_where, line_of, order_of};
ghost use Rattle.data_layout.specs.Best.{IsBest};

use crate::fault::LayoutFault;
use cob_base::Line;

/// The lesser of the best fault so far and a further one.
#[tactic(auto, using(crate::proofs::Bests::stays, crate::proofs::Bests::replaces, crate::proofs::Bests::begins))]
fn note(best: Option<LayoutFault>, fault: LayoutFault) -> Option<LayoutFault>
    ensures { (all : List LayoutFault) → IsBest all best → IsBest (all ++ fault ∷ []) result }
{
    match best {
        None => Some(fault),
        Some(other) => if is_no_later(other, fault) {
            Some(other)
        } else {
            Some(fault)
        },
    }
}

/// The same, where the further fault is there.
pub fn note_where(best: Option<LayoutFault>, holds: bool, fault: LayoutFault) -> Option<LayoutFault>
    ensures { (all : List LayoutFault) → IsBest all best → IsBest (all ++ fault_where holds fault) result }
{
    if holds { note(best, fault) } else { best }
}

fn is_no_later(fault: LayoutFault, other: LayoutFault) -> bool
    ensures { IsTrue result ↔ IsNoLater fault other }
{
    let line = line_number(fault);
    let other_line = line_number(other);
    line < other_line || (line == other_line && order(fault) <= order(other))
}

fn line_number(fault: LayoutFault) -> u32
    ensures { result ≡ line_of fault }
{
    match fault {
        LayoutFault::StorageLimit(line) => line.0,
        LayoutFault::RecordLimit(line) => line.0,
        LayoutFault::BadLevel(line) => line.0,
        LayoutFault::BadPicture(line) => line.0,
        LayoutFault::NoMemory => 0,
    }
}

fn order(fault: LayoutFault) -> u8
    ensures { result ≡ order_of fault }
{
    match fault {
        LayoutFault::StorageLimit(_) => 0,
        LayoutFault::RecordLimit(_) => 1,
        LayoutFault::BadLevel(_) => 2,
        LayoutFault::BadPicture(_) => 3,
        LayoutFault::NoMemory => 4,
    }
}

/// The least fault of 88 entries that stand after no item, which are in these lines.
pub fn least_stray(strays: &[Line]) -> Option<LayoutFault>
    ensures { IsBest (map LayoutFault.BadLevel strays.now) result }
{
    let mut best = None;
    for line in strays {
        best = note(best, LayoutFault::BadLevel(*line));
    }
    best
}
