use crate::test_cases::{Case, Entry, Expected, Extra};
use crate::test_faults::{
    CLAUSES, GROUP_LEVELS, LEVELS, ORDER, RECORD_LIMITS, STORAGE_LIMITS, UNKNOWN_SIZES,
};
use crate::test_places::{FILES, GROUPS, SIGNS, TABLES};
use crate::{Layout, LayoutFault, lay_out};
use cob_base::{
    ByteText, ConditionEntry, DataDivision, DataEntry, FileDescription, Front, ItemClause,
    ItemEntry, Items, Line, NoMemory,
};
use std::alloc::Global;
use std::process::Abort;
use std::test::Fail;

fn push_extra(clauses: &mut Items<ItemClause>, extra: Extra) -> Result<(), NoMemory> {
    match extra {
        Extra::Plain => {}
        Extra::Table(number) => clauses.push(ItemClause::Occurs(number))?,
        Extra::Sign(side, separate) => clauses.push(ItemClause::Sign { side, separate })?,
        Extra::SignedTable(number, side) => {
            clauses.push(ItemClause::Occurs(number))?;
            clauses.push(ItemClause::Sign {
                side,
                separate: true,
            })?;
        }
        Extra::UsageTwice => {
            clauses.push(ItemClause::Display)?;
            clauses.push(ItemClause::Display)?;
        }
    }
    Ok(())
}

fn item_of(
    alloc: Global,
    line: u32,
    level: u8,
    picture: Option<&[u8]>,
    extra: Extra,
) -> Result<DataEntry, NoMemory> {
    let mut clauses = Items::new(alloc);
    if let Some(text) = picture {
        clauses.push(ItemClause::Picture(ByteText::from_bytes(alloc, text)?))?;
    }
    push_extra(&mut clauses, extra)?;
    Ok(DataEntry::Item(ItemEntry {
        line: Line(line),
        level,
        name: Some(ByteText::from_bytes(alloc, b"N")?),
        clauses,
    }))
}

fn entry_of(alloc: Global, entry: &Entry) -> Result<DataEntry, NoMemory> {
    match *entry {
        Entry::Group(line, level, extra) => item_of(alloc, line, level, None, extra),
        Entry::Item(line, level, picture, extra) => item_of(
            alloc,
            line,
            level,
            Some(picture),
            extra,
        ),
        Entry::Condition(line) => Ok(DataEntry::Condition(ConditionEntry {
            line: Line(line),
            name: ByteText::from_bytes(alloc, b"C")?,
            values: Items::new(alloc),
        })),
    }
}

fn entries_of(alloc: Global, entries: &[Entry]) -> Result<Items<DataEntry>, NoMemory> {
    let mut all = Items::new(alloc);
    for entry in entries {
        all.push(entry_of(alloc, entry)?)?;
    }
    Ok(all)
}

fn front_of(alloc: Global, case: &Case) -> Result<Front, NoMemory> {
    let mut files = Items::new(alloc);
    for records in case.files {
        files.push(FileDescription {
            line: Line(1),
            name: ByteText::from_bytes(alloc, b"F")?,
            records: entries_of(alloc, records)?,
        })?;
    }
    Ok(Front {
        program: ByteText::from_bytes(alloc, b"P")?,
        environment: None,
        data: Some(DataDivision {
            files: Some(files),
            working_storage: Some(entries_of(alloc, case.storage)?),
            screens: None,
        }),
    })
}

fn are_places(layout: &Layout, total: u32, places: &[(u32, u32)]) -> bool {
    if layout.total != total || layout.items.len() != places.len() {
        return false;
    }
    for (item, place) in layout.items.as_slice().iter().zip(places) {
        if (item.offset, item.size) != *place {
            return false;
        }
    }
    true
}

fn assert_case(rt: &impl Abort, alloc: Global, case: &Case) -> Result<(), NoMemory> {
    let front = front_of(alloc, case)?;
    match lay_out(alloc, &front) {
        Ok(layout) => match case.expected {
            Expected::Places(total, places) => {
                assert!(rt; are_places(&layout, total, places), "{}", case.name);
            }
            Expected::Fault(_) => assert!(rt; false, "{}", case.name),
        },
        Err(fault) => match case.expected {
            Expected::Places(_, _) => assert!(rt; false, "{}", case.name),
            Expected::Fault(wanted) => assert!(rt; fault == wanted, "{}", case.name),
        },
    }
    Ok(())
}

fn assert_cases(rt: &impl Abort, alloc: Global, cases: &[Case]) -> Result<(), NoMemory> {
    for case in cases {
        assert_case(rt, alloc, case)?;
    }
    Ok(())
}

#[test]
fn groups_lie_as_their_members(rt: HostRuntime) -> Result<(), Fail> {
    assert_cases(&rt, rt.alloc(), GROUPS)?;
    Ok(())
}

#[test]
fn tables_lie_in_a_row(rt: HostRuntime) -> Result<(), Fail> {
    assert_cases(&rt, rt.alloc(), TABLES)?;
    Ok(())
}

#[test]
fn separate_signs_take_a_byte(rt: HostRuntime) -> Result<(), Fail> {
    assert_cases(&rt, rt.alloc(), SIGNS)?;
    Ok(())
}

#[test]
fn files_come_first(rt: HostRuntime) -> Result<(), Fail> {
    assert_cases(&rt, rt.alloc(), FILES)?;
    Ok(())
}

#[test]
fn records_have_a_limit(rt: HostRuntime) -> Result<(), Fail> {
    assert_cases(&rt, rt.alloc(), RECORD_LIMITS)?;
    Ok(())
}

#[test]
fn storage_has_a_limit(rt: HostRuntime) -> Result<(), Fail> {
    assert_cases(&rt, rt.alloc(), STORAGE_LIMITS)?;
    Ok(())
}

#[test]
fn levels_return_to_groups(rt: HostRuntime) -> Result<(), Fail> {
    assert_cases(&rt, rt.alloc(), LEVELS)?;
    Ok(())
}

#[test]
fn groups_have_members_and_no_picture(rt: HostRuntime) -> Result<(), Fail> {
    assert_cases(&rt, rt.alloc(), GROUP_LEVELS)?;
    Ok(())
}

#[test]
fn clauses_keep_their_ranges(rt: HostRuntime) -> Result<(), Fail> {
    assert_cases(&rt, rt.alloc(), CLAUSES)?;
    Ok(())
}

#[test]
fn the_least_fault_is_told(rt: HostRuntime) -> Result<(), Fail> {
    assert_cases(&rt, rt.alloc(), ORDER)?;
    Ok(())
}

#[test]
fn sizes_are_judged_as_far_as_known(rt: HostRuntime) -> Result<(), Fail> {
    assert_cases(&rt, rt.alloc(), UNKNOWN_SIZES)?;
    Ok(())
}

#[test]
fn an_item_has_what_its_entry_says(rt: HostRuntime) -> Result<(), Fail> {
    let entries = [
        Entry::Group(4, 1, Extra::Plain),
        Entry::Item(5, 5, b"X(5)", Extra::Plain),
        Entry::Group(6, 5, Extra::Table(2)),
        Entry::Group(7, 10, Extra::Plain),
        Entry::Item(8, 15, b"S99", Extra::Plain),
        Entry::Item(9, 10, b"X(3)", Extra::Plain),
        Entry::Item(10, 5, b"X", Extra::Table(7)),
        Entry::Item(11, 77, b"9", Extra::Plain),
    ];
    let levels = [1, 5, 5, 10, 15, 10, 5, 77];
    let parents = [
        None,
        Some(0),
        Some(0),
        Some(2),
        Some(3),
        Some(2),
        Some(0),
        None,
    ];
    let occurs = [0, 0, 2, 0, 0, 0, 7, 0];
    let mut all = Items::new(rt.alloc());
    for entry in entries.iter() {
        all.push(entry_of(rt.alloc(), entry)?)?;
    }
    let front = Front {
        program: ByteText::from_bytes(rt.alloc(), b"P")?,
        environment: None,
        data: Some(DataDivision {
            files: None,
            working_storage: Some(all),
            screens: None,
        }),
    };
    let layout = lay_out(rt.alloc(), &front)?;
    assert_eq!(rt; layout.items.len(), 8);
    for (at, item) in layout.items.as_slice().iter().enumerate() {
        if at < 8 {
            assert_eq!(rt; item.parent, parents[at]);
            assert_eq!(rt; item.occurs, occurs[at]);
            assert_eq!(rt; item.line.0 as usize, at + 4);
            assert_eq!(rt; item.level, levels[at]);
            assert_eq!(rt; item.picture.size, item.size);
        }
    }
    Ok(())
}

#[test]
fn no_data_division_has_no_items(rt: HostRuntime) -> Result<(), Fail> {
    let front = Front {
        program: ByteText::from_bytes(rt.alloc(), b"P")?,
        environment: None,
        data: None,
    };
    let layout = lay_out(rt.alloc(), &front)?;
    assert!(rt; layout.items.is_empty());
    assert_eq!(rt; layout.total, 0);
    Ok(())
}
