ghost use Rattle.std.specs.Prelude.{◌≡◌, ◌++◌, ◌∷◌, ◌↔◌, List, [], OnOk, IsTrue};
ghost use Rattle.name_rules.specs.Faults.{fault_where, IsNoLater, IsBest};
ghost use Rattle.name_rules.specs.declared.fault.Fault.{Fault};

use crate::Fault;
use cob_base::{Line, NoMemory};

/// The faults that were found so far.
#[derive(Drop)]
pub struct Faults {
    pub found: Vec<Fault>,
}

impl Faults {
    /// Notes a fault of this reason in a line, where it is there.
    pub fn note(&mut self, reason: u8, line: Line, holds: bool) -> Result<(), NoMemory>
        ensures { OnOk result (self.new.found.items ≡ self.old.found.items ++ fault_where holds reason line) }
    {
        if holds {
            self.found.push(Fault { line, reason })?;
        }
        Ok(())
    }
}

fn is_no_later(fault: Fault, other: Fault) -> bool
    ensures { IsTrue result ↔ IsNoLater fault other }
{
    fault.line.0 < other.line.0 || (fault.line.0 == other.line.0 && fault.reason <= other.reason)
}

/// The lesser of the best fault so far and a further one.
fn lesser(best: Option<Fault>, fault: Fault) -> Option<Fault>
    ensures { (all : List Fault) → IsBest all best → IsBest (all ++ fault ∷ []) result }
{
    match best {
        None => Some(fault),
        Some(other) => if is_no_later(other, fault) {
            Some(other)
        } else {
            Some(fault)
        },
    }
}

/// The least fault, by line, then by reason.
pub fn least(faults: &[Fault]) -> Option<Fault>
    ensures { IsBest faults.now result }
{
    let mut best = None;
    for fault in faults {
        best = lesser(best, *fault);
    }
    best
}
