ghost use Rattle.std.specs.Prelude.{◌≡◌, ℕ, List, [], ◌∷◌, ◌++◌, map, Option, Bool, ◌⊎◌, ◌↔◌, IsTrue, IsSome};
ghost use Rattle.screen_layout.specs.declared.fault.ScreenFault.{ScreenFault};
ghost use Rattle.screen_layout.specs.ScreenFaults.{IsNoLater, fault_where, line_of, order_of};
ghost use Rattle.screen_layout.specs.Best.{IsBest};

use crate::fault::ScreenFault;

/// The lesser of the best fault so far and a further one.
#[tactic(auto, using(crate::proofs::Bests::stays, crate::proofs::Bests::replaces, crate::proofs::Bests::begins))]
fn note(best: Option<ScreenFault>, fault: ScreenFault) -> Option<ScreenFault>
    ensures { (all : List ScreenFault) → IsBest all best → IsBest (all ++ fault ∷ []) result }
{
    match best {
        None => Some(fault),
        Some(other) => if is_no_later(other, fault) {
            Some(other)
        } else {
            Some(fault)
        },
    }
}

/// The same, where the further fault is there.
pub fn note_where(best: Option<ScreenFault>, holds: bool, fault: ScreenFault) -> Option<ScreenFault>
    ensures { (all : List ScreenFault) → IsBest all best → IsBest (all ++ fault_where holds fault) result }
{
    if holds { note(best, fault) } else { best }
}

fn is_no_later(fault: ScreenFault, other: ScreenFault) -> bool
    ensures { IsTrue result ↔ IsNoLater fault other }
{
    let line = line_number(fault);
    let other_line = line_number(other);
    line < other_line || (line == other_line && order(fault) <= order(other))
}

fn line_number(fault: ScreenFault) -> u32
    ensures { result ≡ line_of fault }
{
    match fault {
        ScreenFault::OffScreen(line) => line.0,
        ScreenFault::BadItem(line) => line.0,
        ScreenFault::NoMemory => 0,
    }
}

fn order(fault: ScreenFault) -> u8
    ensures { result ≡ order_of fault }
{
    match fault {
        ScreenFault::OffScreen(_) => 0,
        ScreenFault::BadItem(_) => 1,
        ScreenFault::NoMemory => 2,
    }
}
