use crate::test_cases::{Case, FILES, GROUPS, WITH_VALUE, WITHOUT_VALUE};
use crate::{can_open, opening};
use cob_base::{
    ByteText, Constant, DataDivision, DataEntry, Figurative, FileDescription, Front, ItemClause,
    ItemEntry, Items, Line, NoMemory, Num, Number, SignSide,
};
use data_layout::lay_out;
use std::alloc::Global;
use std::process::Abort;
use std::test::Fail;

/// A row up to its next bar, and the rest.
fn cut(row: &str) -> (&str, &str) {
    row.split_once('|').unwrap_or((row, ""))
}

fn number_of(text: &str) -> Constant {
    let units = text.parse::<i64>().unwrap_or(0);
    Constant::Number(Number {
        value: Num::new(i128::from(units)),
        digits: 18,
        decimals: 6,
        signed: false,
    })
}

fn constant_of(alloc: Global, text: &str) -> Result<Constant, NoMemory> {
    if let Some(bytes) = text.strip_prefix('\'') {
        return Ok(Constant::Text(ByteText::from_bytes(alloc, bytes.as_bytes())?));
    }
    Ok(match text {
        "ZERO" => Constant::Figurative(Figurative::Zero),
        "SPACE" => Constant::Figurative(Figurative::Space),
        "HIGH-VALUE" => Constant::Figurative(Figurative::HighValue),
        "LOW-VALUE" => Constant::Figurative(Figurative::LowValue),
        _ => number_of(text),
    })
}

fn push_sign(clauses: &mut Items<ItemClause>, side: &str) -> Result<(), NoMemory> {
    match side {
        "L" => clauses.push(ItemClause::Sign {
            side: SignSide::Leading,
            separate: true,
        })?,
        "T" => clauses.push(ItemClause::Sign {
            side: SignSide::Trailing,
            separate: true,
        })?,
        _ => {}
    }
    Ok(())
}

fn clauses_of(alloc: Global, row: &str) -> Result<Items<ItemClause>, NoMemory> {
    let mut clauses = Items::new(alloc);
    let (picture, rest) = cut(row);
    let (occurs, rest) = cut(rest);
    let (side, value) = cut(rest);
    if !picture.is_empty() {
        clauses.push(ItemClause::Picture(ByteText::from_bytes(alloc, picture.as_bytes())?))?;
    }
    if !occurs.is_empty() {
        clauses.push(ItemClause::Occurs(occurs.parse::<u64>().unwrap_or(0)))?;
    }
    push_sign(&mut clauses, side)?;
    if !value.is_empty() {
        clauses.push(ItemClause::Value(constant_of(alloc, value)?))?;
    }
    Ok(clauses)
}

fn entry_of(alloc: Global, row: &str) -> Result<DataEntry, NoMemory> {
    let (level, clauses) = cut(row);
    Ok(DataEntry::Item(ItemEntry {
        line: Line(1),
        level: level.parse::<u8>().unwrap_or(0),
        name: None,
        clauses: clauses_of(alloc, clauses)?,
    }))
}

/// The entries from a place on, up to the next section.
fn entries_from(alloc: Global, rows: &[&str], first: usize) -> Result<Items<DataEntry>, NoMemory> {
    let mut entries = Items::new(alloc);
    for row in rows.iter().skip(first) {
        if matches!(*row, "FD" | "WS") {
            break;
        }
        entries.push(entry_of(alloc, row)?)?;
    }
    Ok(entries)
}

fn division_of(alloc: Global, rows: &[&str]) -> Result<DataDivision, NoMemory> {
    let mut files = Items::new(alloc);
    let mut storage = Items::new(alloc);
    for (at, row) in rows.iter().enumerate() {
        match *row {
            "FD" => files.push(FileDescription {
                line: Line(1),
                name: ByteText::from_bytes(alloc, b"F")?,
                records: entries_from(alloc, rows, at + 1)?,
            })?,
            "WS" => storage = entries_from(alloc, rows, at + 1)?,
            _ => {}
        }
    }
    Ok(DataDivision {
        files: Some(files),
        working_storage: Some(storage),
        screens: None,
    })
}

fn front_of(alloc: Global, rows: &[&str]) -> Result<Front, NoMemory> {
    Ok(Front {
        program: ByteText::from_bytes(alloc, b"P")?,
        environment: None,
        data: Some(division_of(alloc, rows)?),
    })
}

/// The byte that a case writes so.
fn wanted_byte(byte: u8) -> u8 {
    match byte {
        b'^' => 255,
        b'~' => 0,
        _ => byte,
    }
}

fn are_wanted(bytes: &[u8], wanted: &str) -> bool {
    bytes.len() == wanted.len()
        && bytes
            .iter()
            .zip(wanted.bytes())
            .all(|(byte, wanted)| *byte == wanted_byte(wanted))
}

/// Whether the case opens as it says.
fn opens(alloc: Global, case: &Case) -> Result<bool, NoMemory> {
    let front = front_of(alloc, case.entries)?;
    match lay_out(alloc, &front) {
        Ok(layout) => {
            if !can_open(alloc, &front, &layout)? {
                return Ok(false);
            }
            let bytes = opening(alloc, &front, &layout)?;
            Ok(are_wanted(bytes.as_bytes(), case.bytes))
        }
        Err(_) => Ok(false),
    }
}

fn assert_cases(rt: &impl Abort, alloc: Global, cases: &[Case]) -> Result<(), NoMemory> {
    for case in cases {
        let held = opens(alloc, case)?;
        assert!(rt; held, "{}", case.name);
    }
    Ok(())
}

#[test]
fn items_without_value_open_by_their_category(rt: HostRuntime) -> Result<(), Fail> {
    assert_cases(&rt, rt.alloc(), WITHOUT_VALUE)?;
    Ok(())
}

#[test]
fn items_open_with_their_value(rt: HostRuntime) -> Result<(), Fail> {
    assert_cases(&rt, rt.alloc(), WITH_VALUE)?;
    Ok(())
}

#[test]
fn the_value_of_a_group_covers_its_members(rt: HostRuntime) -> Result<(), Fail> {
    assert_cases(&rt, rt.alloc(), GROUPS)?;
    Ok(())
}

#[test]
fn records_stand_before_working_storage(rt: HostRuntime) -> Result<(), Fail> {
    assert_cases(&rt, rt.alloc(), FILES)?;
    Ok(())
}

#[test]
fn a_number_fits_no_text(rt: HostRuntime) -> Result<(), Fail> {
    let alloc = rt.alloc();
    let front = front_of(alloc, &["WS", "01|X(3)|||1000000"])?;
    match lay_out(alloc, &front) {
        Ok(layout) => assert!(&rt; !can_open(alloc, &front, &layout)?),
        Err(_) => assert!(&rt; false),
    }
    Ok(())
}
