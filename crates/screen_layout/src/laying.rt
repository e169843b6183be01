ghost use Rattle.std.specs.Prelude.{◌≡◌, ◌⊎◌, All, IfOk, IfErr};
ghost use Rattle.data_layout.specs.Rows.{sections};
ghost use Rattle.data_layout.specs.Outcome.{IsLayoutOf};
ghost use Rattle.screen_layout.specs.Outcome.{screen_entries, AreScreensOf, IsScreenFaultOf};
ghost use Rattle.screen_layout.specs.Plans.{IsPlanOf};
ghost use Rattle.screen_layout.specs.declared.fault.ScreenFault.TheVariants as faults;

use crate::fault::ScreenFault;
use crate::judging::least_fault;
use crate::plan::ScreenPlan;
use crate::planning::make_plans;
use cob_base::{Front, Items, ScreenEntry};
use data_layout::Layout;
use screen_rows::read_rows;
use std::alloc::Global;

/// The plans of a program's screens, one for each screen entry of level 01, in order. The layout is that of the same program.
pub fn lay_screens(
    alloc: Global,
    front: &Front,
    layout: &Layout,
) -> Result<Items<ScreenPlan>, ScreenFault>
    requires { IsLayoutOf (sections front.now) layout.now }
    ensures plans { IfOk result (λ plans. AreScreensOf layout.now (screen_entries front.now) plans) }
    ensures of_layout { IfOk result (λ plans. All (IsPlanOf layout.now) plans) }
    ensures fault { IfErr result (λ fault. (fault ≡ faults.NoMemory) ⊎ IsScreenFaultOf layout.now (screen_entries front.now) fault) }
{
    let read = read_rows(alloc, layout, entries_of(front))?;
    match least_fault(alloc, read.rows.as_slice())? {
        Some(fault) => Err(fault),
        None => Ok(make_plans(alloc, read)?),
    }
}

fn entries_of(front: &Front) -> &[ScreenEntry]
    ensures { result.now ≡ screen_entries front.now }
{
    match &front.data {
        Some(data) => match &data.screens {
            Some(screens) => screens.as_slice(),
            None => &[],
        },
        None => &[],
    }
}
