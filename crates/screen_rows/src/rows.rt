ghost use Rattle.std.specs.Prelude.{◌≡◌, ℕ, ◌==◌, ◌||◌, ◌&&◌, not, is_some, is_none, Bool, List, [], ◌∷◌, ◌++◌, IfOk, Option, Some, drop};
ghost use Rattle.std.specs.Option.{option_copied};
ghost use Rattle.data_layout.specs.Rows.{is_above};
ghost use Rattle.screen_names.specs.Directory.{IsDirectory};
ghost use Rattle.screen_rows.specs.Clauses.{picture_text, value_text};
ghost use Rattle.screen_rows.specs.Rows.{content_of, HasLength, has_operand, has_content, is_past_colours, is_bad_look, is_bad_pairing, is_bad_by, next_level, IsScreenRow, AreScreenRows};
ghost use Rattle.screen_rows.specs.declared.row.Show.{Show};

use crate::clauses::{self, Look};
use crate::contents::{content_by_clauses, see};
use crate::references::references_of;
use crate::row::{Content, ScreenRow, Show};
use cob_base::{ByteText, NoMemory, ScreenClause, ScreenEntry};
use data_layout::{Layout, rank_of};
use picture_rule::Picture;
use screen_names::Directory;
use std::alloc::Global;

/// The rows of a screen section's entries, and what they show.
#[derive(Drop)]
pub struct ScreenRows {
    pub rows: Vec<ScreenRow>,
    pub contents: Vec<Content>,
}

/// A row and a content for each entry, in their order. It asks nothing of the entries and the layout.
pub fn read_rows(
    alloc: Global,
    layout: &Layout,
    entries: &[ScreenEntry],
) -> Result<ScreenRows, NoMemory>
    ensures { IfOk result (λ read. AreScreenRows layout.now entries.now read.rows.items read.contents.items) }
{
    let references = references_of(alloc, entries)?;
    let directory = Directory::of(alloc, layout.items.as_slice(), references.as_slice())?;
    rows_by(alloc, layout, &directory, entries)
}

fn rows_by(
    alloc: Global,
    layout: &Layout,
    directory: &Directory,
    entries: &[ScreenEntry],
) -> Result<ScreenRows, NoMemory>
    requires { IsDirectory layout.now.items directory.now }
    ensures { IfOk result (λ read. AreScreenRows layout.now entries.now read.rows.items read.contents.items) }
{
    let mut rows = Vec::new(alloc);
    let mut contents = Vec::new(alloc);
    for (at, entry) in entries.iter().enumerate() {
        let (row, content) = row_of(alloc, layout, directory, entry, &entries[at + 1..])?;
        rows.push(row)?;
        contents.push(content)?;
    }
    Ok(ScreenRows { rows, contents })
}

fn row_of(
    alloc: Global,
    layout: &Layout,
    directory: &Directory,
    entry: &ScreenEntry,
    rest: &[ScreenEntry],
) -> Result<(ScreenRow, Content), NoMemory>
    requires { IsDirectory layout.now.items directory.now }
    ensures { IfOk result (λ made. IsScreenRow layout.now entry.now rest.now made.0 made.1) }
{
    let clauses = entry.clauses.as_slice();
    let group = has_members(entry.level, rest);
    let seen = see(alloc, clauses)?;
    let found = content_with(alloc, layout, directory, clauses, &seen.picture)?;
    let bad = is_bad(entry.level, clauses, group, found.is_some());
    let (show, into) = or_nothing(found);
    let row = ScreenRow {
        line: entry.line,
        level: entry.level,
        group,
        own: clauses::own_of(clauses),
        size: seen.size,
        bad,
    };
    let content = Content {
        name: copy_name(alloc, &entry.name)?,
        picture: seen.picture,
        show,
        into,
    };
    Ok((row, content))
}

fn content_with(
    alloc: Global,
    layout: &Layout,
    directory: &Directory,
    clauses: &[ScreenClause],
    picture: &Option<Picture>,
) -> Result<Option<(Show, Option<u32>)>, NoMemory>
    requires { IsDirectory layout.now.items directory.now }
    ensures content { IfOk result (λ content. content ≡ content_of layout.now clauses.now picture.now) }
    ensures long { IfOk result (λ content. HasLength clauses.now picture.now content) }
{
    match picture {
        Some(picture) => content_by_clauses(alloc, layout, directory, clauses, picture),
        None => Ok(None),
    }
}

fn or_nothing(content: Option<(Show, Option<u32>)>) -> (Show, Option<u32>)
    ensures { (show : Show) (into : Option ℕ) → content ≡ Some (show, into) → (result.0 ≡ show) × (result.1 ≡ into) }
{
    match content {
        Some(content) => content,
        None => (Show::Nothing, None),
    }
}

fn copy_name(alloc: Global, name: &Option<ByteText>) -> Result<Option<ByteText>, NoMemory>
    ensures { IfOk result (λ copy. copy ≡ name.now) }
{
    match name {
        None => Ok(None),
        Some(name) => Ok(Some(name.copy(alloc)?)),
    }
}

/// Whether members follow an entry of this level.
fn has_members(level: u8, rest: &[ScreenEntry]) -> bool
    ensures { result ≡ is_above level (next_level rest.now) }
{
    match rest {
        [] => false,
        [next, ..] => rank_of(level) < rank_of(next.level),
    }
}

fn shows_operand(clauses: &[ScreenClause]) -> bool
    ensures { result ≡ has_operand clauses.now }
{
    clauses::from(clauses).is_some()
        || clauses::to(clauses).is_some()
        || clauses::using(clauses).is_some()
}

fn shows_content(clauses: &[ScreenClause]) -> bool
    ensures { result ≡ has_content clauses.now }
{
    clauses::picture(clauses).is_some()
        || clauses::value(clauses).is_some()
        || shows_operand(clauses)
}

fn is_past(colour: Option<u64>) -> bool
    ensures { result ≡ is_past_colours colour }
{
    match colour {
        Some(colour) => 7 < colour,
        None => false,
    }
}

fn has_bad_look(look: Look) -> bool
    ensures { result ≡ is_bad_look look }
{
    (look.highlight && look.lowlight) || is_past(look.front) || is_past(look.back)
}

fn are_badly_paired(clauses: &[ScreenClause]) -> bool
    ensures { result ≡ is_bad_pairing clauses.now }
{
    let picture = clauses::picture(clauses).is_some();
    let value = clauses::value(clauses).is_some();
    let operand = shows_operand(clauses);
    (picture && !operand) || (operand && !picture) || (picture && value)
}

/// Whether an entry is at fault by itself, where `found` says that what it shows and fills was found.
fn is_bad(level: u8, clauses: &[ScreenClause], group: bool, found: bool) -> bool
    ensures { result ≡ is_bad_by level clauses.now group found }
{
    let twice = clauses::is_written_twice(clauses);
    let look = has_bad_look(clauses::own_of(clauses).look);
    let content = shows_content(clauses);
    let paired = are_badly_paired(clauses);
    let picture = clauses::picture(clauses).is_some();
    is_any(
        twice,
        look,
        group && content,
        paired,
        picture && !found,
        level == 77,
    )
}

fn is_any(twice: bool, look: bool, group: bool, paired: bool, content: bool, level: bool) -> bool
    ensures { result ≡ (twice || look || group || paired || content || level) }
{
    twice || look || group || paired || content || level
}
