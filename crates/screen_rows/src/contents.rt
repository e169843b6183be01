ghost use Rattle.std.specs.Prelude.{◌≡◌, ℕ, Bool, List, IfOk, IfSome, Option, Some, None, true, length};
ghost use Rattle.std.specs.Option.{option_copied};
ghost use Rattle.cob_value.specs.Moves.{may_move};
ghost use Rattle.screen_names.specs.Directory.{IsDirectory};
ghost use Rattle.screen_rows.specs.Clauses.{value_text, picture_text};
ghost use Rattle.screen_rows.specs.Rows.{IsSeen, text_or_none, unless_signed, picture_of_text, target, single_or_none, source, sink, operand_shown, as_item, as_text, has_operand, IsLong, IsLongIn, shown_alone, both_or_none, spaces, by_value, content_of};

use crate::clauses;
use crate::constants::show_constant;
use crate::row::Show;
use cob_base::{ByteText, NoMemory, Operand, Reference, ScreenClause};
use cob_value::may_move;
use data_layout::{Item, Layout};
use picture_rule::{Picture, PictureFault, read_picture};
use screen_names::{Directory, is_single_item};
use std::alloc::Global;

/// A size, where it is known, and a picture.
#[derive(Drop)]
pub struct Seen {
    pub size: Option<u64>,
    pub picture: Option<Picture>,
}

/// The size and the picture of an entry.
pub fn see(alloc: Global, clauses: &[ScreenClause]) -> Result<Seen, NoMemory>
    ensures { IfOk result (λ seen. IsSeen (picture_text clauses.now) (value_text clauses.now) seen.size seen.picture) }
{
    match clauses::picture(clauses) {
        Some(text) => {
            let seen = see_picture(alloc, text.as_bytes())?;
            Ok(seen)
        }
        None => {
            let size = text_len(clauses::value(clauses));
            Ok(Seen {
                size: Some(size as u64),
                picture: text_picture(alloc, size),
            })
        }
    }
}

fn text_len(text: Option<&ByteText>) -> usize
    ensures { result ≡ length (text_or_none (option_copied text.entry)) }
{
    match text {
        Some(text) => text.as_bytes().len(),
        None => 0,
    }
}

fn text_picture(alloc: Global, size: usize) -> Option<Picture>
    ensures { result ≡ picture_of_text size }
{
    if size <= 9999 {
        Some(Picture::alphanumeric(alloc, size as u32))
    } else {
        None
    }
}

fn see_picture(alloc: Global, text: &[u8]) -> Result<Seen, NoMemory>
    ensures { (value : Option (List ℕ)) → IfOk result (λ seen. IsSeen (Some text.now) value seen.size seen.picture) }
{
    match read_picture(alloc, text) {
        Ok(picture) => Ok(see_read(picture)),
        Err(PictureFault::NoPicture) => Ok(Seen {
            size: None,
            picture: None,
        }),
        Err(PictureFault::TooWide { size, signed, .. }) => Ok(Seen {
            size: size_unless(signed, size),
            picture: None,
        }),
        Err(PictureFault::NoMemory) => Err(NoMemory),
    }
}

fn size_unless(signed: bool, size: u32) -> Option<u64>
    ensures { result ≡ unless_signed signed size }
{
    if signed { None } else { Some(u64::from(size)) }
}

fn see_read(picture: Picture) -> Seen
    ensures size { result.size ≡ unless_signed picture.signed picture.size }
    ensures picture { result.picture ≡ unless_signed picture.signed picture }
{
    if picture.signed {
        return Seen {
            size: None,
            picture: None,
        };
    }
    Seen {
        size: Some(u64::from(picture.size)),
        picture: Some(picture),
    }
}

/// The item that a reference without a subscript names, which has no OCCURS in or above it.
fn named(
    alloc: Global,
    layout: &Layout,
    directory: &Directory,
    reference: &Reference,
) -> Result<Option<usize>, NoMemory>
    requires { IsDirectory layout.now.items directory.now }
    ensures { IfOk result (λ found. found ≡ target layout.now reference.now) }
{
    if reference.subscript.is_some() {
        return Ok(None);
    }
    let found = directory.find(alloc, layout.items.as_slice(), reference)?;
    Ok(single_or_none(layout.items.as_slice(), found))
}

fn single_or_none(items: &[Item], found: Option<usize>) -> Option<usize>
    ensures { result ≡ single_or_none items.now found }
{
    match found {
        Some(number) => if is_single_item(items, number) {
            Some(number)
        } else {
            None
        },
        None => None,
    }
}

/// An item that may be moved into the picture.
fn find_source(
    alloc: Global,
    layout: &Layout,
    directory: &Directory,
    picture: &Picture,
    reference: &Reference,
) -> Result<Option<u32>, NoMemory>
    requires { IsDirectory layout.now.items directory.now }
    ensures { IfOk result (λ found. found ≡ source layout.now picture.now reference.now) }
{
    let Some(number) = named(alloc, layout, directory, reference)? else {
        return Ok(None);
    };
    match layout.items.get(number) {
        Some(item) if may_move(&item.picture, picture) => Ok(Some(count(number)?)),
        _ => Ok(None),
    }
}

/// An item into which the picture may be moved.
fn find_sink(
    alloc: Global,
    layout: &Layout,
    directory: &Directory,
    picture: &Picture,
    reference: &Reference,
) -> Result<Option<u32>, NoMemory>
    requires { IsDirectory layout.now.items directory.now }
    ensures { IfOk result (λ found. found ≡ sink layout.now picture.now reference.now) }
{
    let Some(number) = named(alloc, layout, directory, reference)? else {
        return Ok(None);
    };
    match layout.items.get(number) {
        Some(item) if may_move(picture, &item.picture) => Ok(Some(count(number)?)),
        _ => Ok(None),
    }
}

/// A number of 32 bits, where there are not too many items to be counted.
fn count(number: usize) -> Result<u32, NoMemory>
    ensures { IfOk result (λ counted. counted ≡ number) }
{
    u32::try_from(number).map_err(|_| NoMemory)
}

/// What FROM shows.
fn show_operand(
    alloc: Global,
    layout: &Layout,
    directory: &Directory,
    picture: &Picture,
    operand: &Operand,
) -> Result<Option<Show>, NoMemory>
    requires { IsDirectory layout.now.items directory.now }
    ensures shown { IfOk result (λ shown. shown ≡ operand_shown layout.now picture.now operand.now) }
    ensures long { IfOk result (λ shown. IfSome shown (λ show. IsLong picture.now.size show)) }
{
    match operand {
        Operand::Reference(reference) => {
            let found = find_source(alloc, layout, directory, picture, reference)?;
            Ok(as_item_of(found))
        }
        Operand::Constant(constant) => {
            let shown = show_constant(alloc, constant, picture)?;
            Ok(as_text_of(shown))
        }
    }
}

/// What an entry shows and fills. None where one of these is refused.
pub fn content_by_clauses(
    alloc: Global,
    layout: &Layout,
    directory: &Directory,
    clauses: &[ScreenClause],
    picture: &Picture,
) -> Result<Option<(Show, Option<u32>)>, NoMemory>
    requires { IsDirectory layout.now.items directory.now }
    ensures content { IfOk result (λ content. content ≡ content_of layout.now clauses.now (Some picture.now)) }
    ensures long { IfOk result (λ content. has_operand clauses.now ≡ true → IsLongIn picture.now.size content) }
{
    let operand = clauses::from(clauses);
    let filled = clauses::to(clauses);
    match (operand, filled, clauses::using(clauses)) {
        (None, None, None) => Ok(Some((by_value_of(alloc, clauses::value(clauses))?, None))),
        (Some(operand), None, None) => {
            let show = show_operand(alloc, layout, directory, picture, operand)?;
            Ok(alone(show))
        }
        (Some(operand), Some(reference), None) => {
            let show = show_operand(alloc, layout, directory, picture, operand)?;
            let into = find_sink(alloc, layout, directory, picture, reference)?;
            Ok(both(show, into))
        }
        (None, Some(reference), None) => {
            let show = Show::Text(blanks(alloc, picture)?);
            let into = find_sink(alloc, layout, directory, picture, reference)?;
            Ok(both(Some(show), into))
        }
        (None, None, Some(reference)) => {
            let from = find_source(alloc, layout, directory, picture, reference)?;
            let into = find_sink(alloc, layout, directory, picture, reference)?;
            Ok(both(as_item_of(from), into))
        }
        _ => Ok(None),
    }
}

fn as_text_of(text: Option<ByteText>) -> Option<Show>
    ensures { result ≡ as_text text }
{
    match text {
        Some(text) => Some(Show::Text(text)),
        None => None,
    }
}

fn as_item_of(number: Option<u32>) -> Option<Show>
    ensures { result ≡ as_item number }
{
    match number {
        Some(number) => Some(Show::Item(number)),
        None => None,
    }
}

fn alone(show: Option<Show>) -> Option<(Show, Option<u32>)>
    ensures { result ≡ shown_alone show }
{
    match show {
        Some(show) => Some((show, None)),
        None => None,
    }
}

fn both(show: Option<Show>, into: Option<u32>) -> Option<(Show, Option<u32>)>
    ensures { result ≡ both_or_none show into }
{
    match show {
        Some(show) => match into {
            Some(into) => Some((show, Some(into))),
            None => None,
        },
        None => None,
    }
}

fn blanks(alloc: Global, picture: &Picture) -> Result<ByteText, NoMemory>
    ensures { IfOk result (λ text. text ≡ spaces picture.now) }
{
    Ok(ByteText::from_vec(vec![in alloc; b' '; picture.size as usize]?))
}

fn by_value_of(alloc: Global, value: Option<&ByteText>) -> Result<Show, NoMemory>
    ensures { IfOk result (λ show. show ≡ by_value (option_copied value.entry)) }
{
    match value {
        Some(text) => Ok(Show::Text(text.copy(alloc)?)),
        None => Ok(Show::Nothing),
    }
}
