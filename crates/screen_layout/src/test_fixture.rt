use crate::test_cases::{Clause, Entry};
use cob_base::{
    ByteText, Constant, DataDivision, DataEntry, Front, ItemClause, ItemEntry, Items, Line,
    NoMemory, Num, Number, Operand, Reference, ScreenClause, ScreenEntry, Subscript,
};
use std::alloc::Global;

pub fn text(alloc: Global, bytes: &[u8]) -> Result<ByteText, NoMemory> {
    ByteText::from_bytes(alloc, bytes)
}

/// A data item of a name; without a picture a group.
fn item(
    alloc: Global,
    level: u8,
    name: &[u8],
    picture: Option<&[u8]>,
    occurs: Option<u64>,
) -> Result<DataEntry, NoMemory> {
    let mut clauses = Items::new(alloc);
    if let Some(bytes) = picture {
        clauses.push(ItemClause::Picture(text(alloc, bytes)?))?;
    }
    if let Some(number) = occurs {
        clauses.push(ItemClause::Occurs(number))?;
    }
    Ok(DataEntry::Item(ItemEntry {
        line: Line(1),
        level,
        name: Some(text(alloc, name)?),
        clauses,
    }))
}

/// The bytes of storage: each item's, in order.
pub const STORAGE: &[u8] = b"HELLO042d15abz04r\x1f\x7f\xc8uyz";

/// A of five bytes, N of three digits, G with D, E with a decimal place and the table T, another D, M with a sign, H with bytes that are
/// not shown, U in S in R, and W with Z in the table Y.
fn storage(alloc: Global) -> Result<Items<DataEntry>, NoMemory> {
    let mut entries = Items::new(alloc);
    entries.push(item(alloc, 1, b"A", Some(b"X(5)"), None)?)?;
    entries.push(item(alloc, 1, b"N", Some(b"9(3)"), None)?)?;
    entries.push(item(alloc, 1, b"G", None, None)?)?;
    entries.push(item(alloc, 5, b"D", Some(b"X"), None)?)?;
    entries.push(item(alloc, 5, b"E", Some(b"9V9"), None)?)?;
    entries.push(item(alloc, 5, b"T", Some(b"X"), Some(2))?)?;
    entries.push(item(alloc, 77, b"D", Some(b"X"), None)?)?;
    entries.push(item(alloc, 77, b"M", Some(b"S9(3)"), None)?)?;
    entries.push(item(alloc, 77, b"H", Some(b"X(3)"), None)?)?;
    push_groups(alloc, &mut entries)?;
    Ok(entries)
}

fn push_groups(alloc: Global, entries: &mut Items<DataEntry>) -> Result<(), NoMemory> {
    entries.push(item(alloc, 1, b"R", None, None)?)?;
    entries.push(item(alloc, 5, b"S", None, None)?)?;
    entries.push(item(alloc, 10, b"U", Some(b"X"), None)?)?;
    entries.push(item(alloc, 1, b"W", None, None)?)?;
    entries.push(item(alloc, 5, b"Y", None, Some(2))?)?;
    entries.push(item(alloc, 10, b"Z", Some(b"X"), None)?)?;
    Ok(())
}

fn named(
    alloc: Global,
    name: &[u8],
    groups: &[&[u8]],
    second: bool,
) -> Result<Reference, NoMemory> {
    let mut qualifiers = Items::new(alloc);
    for group in groups {
        qualifiers.push(text(alloc, group)?)?;
    }
    Ok(Reference {
        name: text(alloc, name)?,
        qualifiers,
        subscript: if second {
            Some(Subscript::Number(2))
        } else {
            None
        },
    })
}

fn clause_of(alloc: Global, clause: &Clause) -> Result<ScreenClause, NoMemory> {
    Ok(match *clause {
        Clause::Line(position) => ScreenClause::Line(position),
        Clause::Column(position) => ScreenClause::Column(position),
        Clause::Value(bytes) => ScreenClause::Value(text(alloc, bytes)?),
        Clause::Picture(bytes) => ScreenClause::Picture(text(alloc, bytes)?),
        Clause::From(name) => ScreenClause::From(Operand::Reference(named(
            alloc,
            name,
            &[],
            false,
        )?)),
        Clause::FromOf(name, groups) => ScreenClause::From(Operand::Reference(named(
            alloc, name, groups, false,
        )?)),
        Clause::FromText(bytes) => ScreenClause::From(Operand::Constant(Constant::Text(text(
            alloc, bytes,
        )?))),
        Clause::FromNumber(units, digits, decimals, signed) => ScreenClause::From(
            Operand::Constant(Constant::Number(Number {
                value: Num::new(i128::from(units)),
                digits,
                decimals,
                signed,
            })),
        ),
        Clause::FromFigure(figure) => ScreenClause::From(Operand::Constant(Constant::Figurative(
            figure,
        ))),
        Clause::To(name) => ScreenClause::To(named(alloc, name, &[], false)?),
        Clause::Using(name) => ScreenClause::Using(named(alloc, name, &[], false)?),
        Clause::UsingSecond(name) => ScreenClause::Using(named(alloc, name, &[], true)?),
        Clause::Mark(mark) => ScreenClause::Mark(mark),
        Clause::Front(colour) => ScreenClause::ForegroundColor(colour),
        Clause::Back(colour) => ScreenClause::BackgroundColor(colour),
        Clause::Blank(what) => ScreenClause::Blank(what),
        Clause::Erase(what) => ScreenClause::Erase(what),
    })
}

fn entry_of(alloc: Global, entry: &Entry) -> Result<ScreenEntry, NoMemory> {
    let mut clauses = Items::new(alloc);
    for clause in entry.2 {
        clauses.push(clause_of(alloc, clause)?)?;
    }
    Ok(ScreenEntry {
        line: Line(entry.0),
        level: entry.1,
        name: None,
        clauses,
    })
}

pub fn front_of(alloc: Global, entries: &[Entry]) -> Result<Front, NoMemory> {
    let mut screens = Items::new(alloc);
    for entry in entries {
        screens.push(entry_of(alloc, entry)?)?;
    }
    Ok(Front {
        program: text(alloc, b"P")?,
        environment: None,
        data: Some(DataDivision {
            files: None,
            working_storage: Some(storage(alloc)?),
            screens: Some(screens),
        }),
    })
}
