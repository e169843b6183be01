use crate::test_cases::{Case, Clause, EDGES, Entry, Expected, PLACES};
use crate::test_faults::{CLAUSES, LEVELS_AND_ORDER, OPERANDS};
use crate::test_fixture::front_of;
use crate::test_names::{BOUNDS, GROUPED, NAMES, PAIRS};
use crate::{Placed, ScreenPlan, lay_screens};
use cob_base::ScreenMark;
use data_layout::lay_out;
use std::alloc::Global;
use std::process::Abort;
use std::test::Fail;

/// Whether the items of all plans are at these places.
fn are_places(plans: &[ScreenPlan], places: &[(u8, u8, u8)]) -> bool {
    let mut at = 0;
    for plan in plans {
        for placed in plan.items.as_slice() {
            match places.get(at) {
                Some(place) => if (placed.line, placed.column, placed.size) != *place {
                    return false;
                },
                None => return false,
            }
            at += 1;
        }
    }
    at == places.len()
}

fn assert_case(rt: &impl Abort, alloc: Global, case: &Case) -> Result<(), Fail> {
    let front = front_of(alloc, case.entries)?;
    let layout = lay_out(alloc, &front)?;
    match lay_screens(alloc, &front, &layout) {
        Ok(plans) => match case.expected {
            Expected::Places(places) => assert!(rt;
                are_places(plans.as_slice(), places),
                "{}",
                case.name
            ),
            Expected::Fault(_) => assert!(rt; false, "{}", case.name),
        },
        Err(fault) => match case.expected {
            Expected::Places(_) => assert!(rt; false, "{}", case.name),
            Expected::Fault(wanted) => assert!(rt; fault == wanted, "{}", case.name),
        },
    }
    Ok(())
}

fn assert_cases(rt: &impl Abort, alloc: Global, cases: &[Case]) -> Result<(), Fail> {
    for case in cases {
        assert_case(rt, alloc, case)?;
    }
    Ok(())
}

#[test]
fn items_stand_by_their_predecessors(rt: HostRuntime) -> Result<(), Fail> {
    assert_cases(&rt, rt.alloc(), PLACES)
}

#[test]
fn items_keep_to_the_screen(rt: HostRuntime) -> Result<(), Fail> {
    assert_cases(&rt, rt.alloc(), EDGES)
}

#[test]
fn operands_name_items_that_fit(rt: HostRuntime) -> Result<(), Fail> {
    assert_cases(&rt, rt.alloc(), OPERANDS)
}

#[test]
fn names_stand_for_one_item(rt: HostRuntime) -> Result<(), Fail> {
    assert_cases(&rt, rt.alloc(), NAMES)
}

#[test]
fn clauses_go_together(rt: HostRuntime) -> Result<(), Fail> {
    assert_cases(&rt, rt.alloc(), CLAUSES)?;
    assert_cases(&rt, rt.alloc(), PAIRS)
}

#[test]
fn groups_place_their_first_item(rt: HostRuntime) -> Result<(), Fail> {
    assert_cases(&rt, rt.alloc(), GROUPED)
}

#[test]
fn the_screen_has_24_lines_of_80_columns(rt: HostRuntime) -> Result<(), Fail> {
    assert_cases(&rt, rt.alloc(), BOUNDS)
}

const FIELDS: &[Entry] = &[
    Entry(1, 1, &[Clause::Mark(ScreenMark::Required)]),
    Entry(
        2,
        5,
        &[
            Clause::Picture(b"X(5)"),
            Clause::Using(b"A"),
            Clause::Mark(ScreenMark::Auto),
        ],
    ),
    Entry(
        3,
        5,
        &[
            Clause::Picture(b"9(3)"),
            Clause::To(b"N"),
            Clause::Mark(ScreenMark::Full),
        ],
    ),
    Entry(4, 5, &[Clause::Value(b"A")]),
];

fn assert_fields(rt: &impl Abort, items: &[Placed]) {
    if let [used, filled, shown] = items {
        assert_eq!(rt;
            (used.into, filled.into, shown.into),
            (Some(0), Some(1), None)
        );
        assert!(rt; used.style.required && filled.style.required && shown.style.required);
        assert_eq!(rt; (used.style.auto, filled.style.auto), (true, false));
        assert_eq!(rt; (used.style.full, filled.style.full), (false, true));
    } else {
        assert_eq!(rt; items.len(), 3);
    }
}

#[test]
fn fields_keep_what_they_fill_and_how(rt: HostRuntime) -> Result<(), Fail> {
    let front = front_of(rt.alloc(), FIELDS)?;
    let layout = lay_out(rt.alloc(), &front)?;
    let plans = lay_screens(rt.alloc(), &front, &layout)?;
    assert_eq!(rt; plans.len(), 1);
    for plan in plans.as_slice() {
        assert_fields(&rt, plan.items.as_slice());
    }
    Ok(())
}
