//! The clauses of screen description entries.

ghost use Rattle.std.specs.Prelude.{◌≡◌, ◌||◌, Ok};
ghost use Rattle.cob_base.specs.Form.Form.{optional};
ghost use Rattle.cob_base.specs.Form.{opens, is_there};
ghost use Rattle.cob_base.specs.ScreenEntries as screens;
ghost use Rattle.phrase_parser.specs.Reading.{Gives, read, or_no_fit, seen_rest, seen_words};

use crate::item_clauses::picture;
use cob_base::{Blanked, Erased, Keyword, MAX_OPEN, Position, ScreenClause, ScreenMark, Token};
use phrase_parser::{
    PhraseFault, expect, found, from_stop, int, next_is, no_fit, noise, operand, past, reference,
};
use std::alloc::Global;

/// What a reserved word after BLANK names.
fn blanked_of(keyword: Keyword) -> Option<Blanked>
    ensures { result ≡ screens.blanked_of keyword }
{
    match keyword {
        Keyword::Screen => Some(Blanked::Screen),
        Keyword::Line => Some(Blanked::Line),
        _ => None,
    }
}

/// `BLANK (SCREEN|LINE)`
#[tactic(auto, unfolding(cob_base::specs::ScreenEntries::blank))]
fn blank(words: &[Token]) -> Option<(ScreenClause, &[Token])>
    ensures { read screens.blank words.now ≡ or_no_fit (seen_rest result) }
{
    let rest = past(words, Keyword::Blank)?;
    match rest {
        [Token::Key(have), rest @ ..] => Some((ScreenClause::Blank(blanked_of(*have)?), rest)),
        _ => None,
    }
}

/// What a reserved word after ERASE names.
fn erased_of(keyword: Keyword) -> Option<Erased>
    ensures { result ≡ screens.erased_of keyword }
{
    match keyword {
        Keyword::Eol => Some(Erased::LineEnd),
        Keyword::Eos => Some(Erased::ScreenEnd),
        _ => None,
    }
}

/// `ERASE (EOL|EOS)`
#[tactic(auto, unfolding(cob_base::specs::ScreenEntries::erase))]
fn erase(words: &[Token]) -> Option<(ScreenClause, &[Token])>
    ensures { read screens.erase words.now ≡ or_no_fit (seen_rest result) }
{
    let rest = past(words, Keyword::Erase)?;
    match rest {
        [Token::Key(have), rest @ ..] => Some((ScreenClause::Erase(erased_of(*have)?), rest)),
        _ => None,
    }
}

/// Whether a reserved word that is PLUS or MINUS is MINUS.
fn step_of(keyword: Keyword) -> Option<bool>
    ensures { result ≡ screens.step_of keyword }
{
    match keyword {
        Keyword::Plus => Some(false),
        Keyword::Minus => Some(true),
        _ => None,
    }
}

/// `[PLUS|MINUS]`, and what follows.
#[tactic(auto, unfolding(cob_base::specs::ScreenEntries::step))]
fn optional_step(words: &[Token]) -> (Option<bool>, &[Token])
    ensures { read (optional screens.step) words.now ≡ Ok (result.0, result.1.now) }
{
    match words {
        [Token::Key(have), rest @ ..] => match step_of(*have) {
            Some(minus) => (Some(minus), rest),
            None => (None, words),
        },
        _ => (None, words),
    }
}

/// The place that a number names.
fn position_of(step: Option<bool>, number: u64) -> Position
    ensures { result ≡ screens.position_of (step, number) }
{
    match step {
        None => Position::At(number),
        Some(false) => Position::Plus(number),
        Some(true) => Position::Minus(number),
    }
}

/// `[PLUS|MINUS] int`
#[tactic(auto, unfolding(cob_base::specs::ScreenEntries::position))]
fn position(words: &[Token]) -> Result<(Position, &[Token]), PhraseFault>
    ensures { Gives (λ x. (x.0, x.1.now)) result (read screens.position words.now) }
{
    let (step, rest) = optional_step(words);
    let (number, rest) = int(rest)?;
    Ok((position_of(step, number), rest))
}

/// `LINE [NUMBER] [IS] [PLUS|MINUS] int`
#[tactic(auto, unfolding(cob_base::specs::ScreenEntries::line_clause))]
fn line_clause(words: &[Token]) -> Result<(ScreenClause, &[Token]), PhraseFault>
    ensures { Gives (λ x. (x.0, x.1.now)) result (read screens.line_clause words.now) }
{
    let rest = expect(words, Keyword::Line)?;
    let (_number, rest) = noise(rest, Keyword::Number);
    let (_is, rest) = noise(rest, Keyword::Is);
    let (position, rest) = position(rest)?;
    Ok((ScreenClause::Line(position), rest))
}

/// `(COL|COLUMN) [NUMBER] [IS] [PLUS|MINUS] int`
#[tactic(auto, unfolding(cob_base::specs::ScreenEntries::column))]
fn column(words: &[Token]) -> Result<(ScreenClause, &[Token]), PhraseFault>
    ensures { Gives (λ x. (x.0, x.1.now)) result (read screens.column words.now) }
{
    let rest = expect(words, Keyword::Column)?;
    let (_number, rest) = noise(rest, Keyword::Number);
    let (_is, rest) = noise(rest, Keyword::Is);
    let (position, rest) = position(rest)?;
    Ok((ScreenClause::Column(position), rest))
}

/// `VALUE [IS] text`
#[tactic(auto, unfolding(cob_base::specs::ScreenEntries::value))]
fn value(alloc: Global, words: &[Token]) -> Result<(ScreenClause, &[Token]), PhraseFault>
    ensures { Gives (λ x. (x.0, x.1.now)) result (read screens.value words.now) }
{
    let rest = expect(words, Keyword::Value)?;
    let (_is, rest) = noise(rest, Keyword::Is);
    match rest {
        [Token::Text(text), rest @ ..] => Ok((ScreenClause::Value(text.copy(alloc)?), rest)),
        _ => Err(no_fit()),
    }
}

/// `(PIC|PICTURE) [IS] picture`
#[tactic(auto, unfolding(cob_base::specs::ScreenEntries::picture_clause))]
fn picture_clause(alloc: Global, words: &[Token]) -> Result<(ScreenClause, &[Token]), PhraseFault>
    ensures { Gives (λ x. (x.0, x.1.now)) result (read screens.picture_clause words.now) }
{
    let (picture, rest) = picture(alloc, words)?;
    Ok((ScreenClause::Picture(picture), rest))
}

/// `FROM operand`
#[tactic(auto, unfolding(cob_base::specs::ScreenEntries::from))]
fn from(alloc: Global, words: &[Token]) -> Result<(ScreenClause, &[Token]), PhraseFault>
    ensures { Gives (λ x. (x.0, x.1.now)) result (read screens.from words.now) }
{
    let rest = expect(words, Keyword::From)?;
    let (item, rest) = operand(alloc, MAX_OPEN, rest)?;
    Ok((ScreenClause::From(item), rest))
}

/// `TO ref`
#[tactic(auto, unfolding(cob_base::specs::ScreenEntries::to))]
fn to(alloc: Global, words: &[Token]) -> Result<(ScreenClause, &[Token]), PhraseFault>
    ensures { Gives (λ x. (x.0, x.1.now)) result (read screens.to words.now) }
{
    let rest = expect(words, Keyword::To)?;
    let (item, rest) = reference(alloc, MAX_OPEN, rest)?;
    Ok((ScreenClause::To(item), rest))
}

/// `USING ref`
#[tactic(auto, unfolding(cob_base::specs::ScreenEntries::using_item))]
fn using_item(alloc: Global, words: &[Token]) -> Result<(ScreenClause, &[Token]), PhraseFault>
    ensures { Gives (λ x. (x.0, x.1.now)) result (read screens.using_item words.now) }
{
    let rest = expect(words, Keyword::Using)?;
    let (item, rest) = reference(alloc, MAX_OPEN, rest)?;
    Ok((ScreenClause::Using(item), rest))
}

/// The mark that a reserved word is.
fn screen_mark_of(keyword: Keyword) -> Option<ScreenMark>
    ensures { result ≡ screens.screen_mark_of keyword }
{
    match keyword {
        Keyword::Highlight => Some(ScreenMark::Highlight),
        Keyword::Lowlight => Some(ScreenMark::Lowlight),
        Keyword::ReverseVideo => Some(ScreenMark::ReverseVideo),
        Keyword::Underline => Some(ScreenMark::Underline),
        Keyword::Blink => Some(ScreenMark::Blink),
        Keyword::Secure => Some(ScreenMark::Secure),
        Keyword::Required => Some(ScreenMark::Required),
        Keyword::Full => Some(ScreenMark::Full),
        Keyword::Auto => Some(ScreenMark::Auto),
        _ => None,
    }
}

/// A clause of one word.
#[tactic(auto, unfolding(cob_base::specs::ScreenEntries::screen_mark))]
fn screen_mark(words: &[Token]) -> Option<(ScreenClause, &[Token])>
    ensures { read screens.screen_mark words.now ≡ or_no_fit (seen_rest result) }
{
    match words {
        [Token::Key(have), rest @ ..] => Some((ScreenClause::Mark(screen_mark_of(*have)?), rest)),
        _ => None,
    }
}

/// `FOREGROUND-COLOR [IS] int`
#[tactic(auto, unfolding(cob_base::specs::ScreenEntries::foreground))]
fn foreground(words: &[Token]) -> Result<(ScreenClause, &[Token]), PhraseFault>
    ensures { Gives (λ x. (x.0, x.1.now)) result (read screens.foreground words.now) }
{
    let rest = expect(words, Keyword::ForegroundColor)?;
    let (_is, rest) = noise(rest, Keyword::Is);
    let (color, rest) = int(rest)?;
    Ok((ScreenClause::ForegroundColor(color), rest))
}

/// `BACKGROUND-COLOR [IS] int`
#[tactic(auto, unfolding(cob_base::specs::ScreenEntries::background))]
fn background(words: &[Token]) -> Result<(ScreenClause, &[Token]), PhraseFault>
    ensures { Gives (λ x. (x.0, x.1.now)) result (read screens.background words.now) }
{
    let rest = expect(words, Keyword::BackgroundColor)?;
    let (_is, rest) = noise(rest, Keyword::Is);
    let (color, rest) = int(rest)?;
    Ok((ScreenClause::BackgroundColor(color), rest))
}

/// Whether a reserved word begins a clause that is read and refused.
fn is_outside(keyword: Keyword) -> bool
    ensures { result ≡ is_there (screens.outside_screen_word keyword) }
{
    match keyword {
        Keyword::Global => true,
        Keyword::Occurs => true,
        Keyword::OutsideScreenWord => true,
        _ => false,
    }
}

/// A clause that is read and refused, with all words up to the entry's period.
#[tactic(auto, unfolding(cob_base::specs::ScreenEntries::outside_screen))]
fn outside_screen(words: &[Token]) -> Option<(ScreenClause, &[Token])>
    ensures { read screens.outside_screen words.now ≡ or_no_fit (seen_rest result) }
{
    match words {
        [Token::Key(have), rest @ ..] if is_outside(*have) => Some((
            ScreenClause::Outside,
            from_stop(rest),
        )),
        _ => None,
    }
}

#[tactic(auto, using(crate::proofs::ScreenDispatch::opens_blank_is))]
fn opens_blank(words: &[Token]) -> bool
    ensures { result ≡ opens screens.blank words.now }
{
    blank(words).is_some()
}

#[tactic(auto, using(crate::proofs::ScreenDispatch::opens_erase_is))]
fn opens_erase(words: &[Token]) -> bool
    ensures { result ≡ opens screens.erase words.now }
{
    erase(words).is_some()
}

#[tactic(auto, using(crate::proofs::ScreenDispatch::opens_line_clause_is))]
fn opens_line_clause(words: &[Token]) -> bool
    ensures { result ≡ opens screens.line_clause words.now }
{
    next_is(words, Keyword::Line)
}

#[tactic(auto, using(crate::proofs::ScreenDispatch::opens_column_is))]
fn opens_column(words: &[Token]) -> bool
    ensures { result ≡ opens screens.column words.now }
{
    next_is(words, Keyword::Column)
}

#[tactic(auto, using(crate::proofs::ScreenDispatch::opens_value_is))]
fn opens_value(words: &[Token]) -> bool
    ensures { result ≡ opens screens.value words.now }
{
    next_is(words, Keyword::Value)
}

#[tactic(auto, using(crate::proofs::ScreenDispatch::opens_picture_clause_is))]
fn opens_picture_clause(words: &[Token]) -> bool
    ensures { result ≡ opens screens.picture_clause words.now }
{
    next_is(words, Keyword::Picture)
}

#[tactic(auto, using(crate::proofs::ScreenDispatch::opens_from_is))]
fn opens_from(words: &[Token]) -> bool
    ensures { result ≡ opens screens.from words.now }
{
    next_is(words, Keyword::From)
}

#[tactic(auto, using(crate::proofs::ScreenDispatch::opens_to_is))]
fn opens_to(words: &[Token]) -> bool
    ensures { result ≡ opens screens.to words.now }
{
    next_is(words, Keyword::To)
}

#[tactic(auto, using(crate::proofs::ScreenDispatch::opens_using_item_is))]
fn opens_using_item(words: &[Token]) -> bool
    ensures { result ≡ opens screens.using_item words.now }
{
    next_is(words, Keyword::Using)
}

#[tactic(auto, using(crate::proofs::ScreenDispatch::opens_screen_mark_is))]
fn opens_screen_mark(words: &[Token]) -> bool
    ensures { result ≡ opens screens.screen_mark words.now }
{
    screen_mark(words).is_some()
}

#[tactic(auto, using(crate::proofs::ScreenDispatch::opens_foreground_is))]
fn opens_foreground(words: &[Token]) -> bool
    ensures { result ≡ opens screens.foreground words.now }
{
    next_is(words, Keyword::ForegroundColor)
}

#[tactic(auto, using(crate::proofs::ScreenDispatch::opens_background_is))]
fn opens_background(words: &[Token]) -> bool
    ensures { result ≡ opens screens.background words.now }
{
    next_is(words, Keyword::BackgroundColor)
}

#[tactic(auto, using(crate::proofs::ScreenDispatch::opens_outside_is))]
fn opens_outside_screen(words: &[Token]) -> bool
    ensures { result ≡ opens screens.outside_screen words.now }
{
    outside_screen(words).is_some()
}

/// A clause of a screen description entry.
#[tactic(auto, unfolding(cob_base::specs::ScreenEntries::screen_clause, cob_base::specs::ScreenEntries::screen_clause_within))]
pub fn screen_clause(
    alloc: Global,
    _depth: usize,
    words: &[Token],
) -> Result<(ScreenClause, &[Token]), PhraseFault>
    ensures { Gives (λ x. (x.0, x.1.now)) result (read screens.screen_clause words.now) }
{
    if opens_blank(words) {
        return found(blank(words));
    }
    if opens_erase(words) {
        return found(erase(words));
    }
    if opens_line_clause(words) {
        return line_clause(words);
    }
    if opens_column(words) {
        return column(words);
    }
    if opens_value(words) {
        return value(alloc, words);
    }
    if opens_picture_clause(words) {
        return picture_clause(alloc, words);
    }
    if opens_from(words) {
        return from(alloc, words);
    }
    show_clause(alloc, words)
}

/// A clause that names what an item moves, shows or marks.
#[tactic(auto, unfolding(cob_base::specs::ScreenEntries::show_clause))]
fn show_clause(alloc: Global, words: &[Token]) -> Result<(ScreenClause, &[Token]), PhraseFault>
    ensures { Gives (λ x. (x.0, x.1.now)) result (read screens.show_clause words.now) }
{
    if opens_to(words) {
        return to(alloc, words);
    }
    if opens_using_item(words) {
        return using_item(alloc, words);
    }
    if opens_screen_mark(words) {
        return found(screen_mark(words));
    }
    if opens_foreground(words) {
        return foreground(words);
    }
    if opens_background(words) {
        return background(words);
    }
    found(outside_screen(words))
}

/// Whether a clause of a screen description entry comes next.
#[tactic(auto, unfolding(cob_base::specs::ScreenEntries::screen_clause, cob_base::specs::ScreenEntries::screen_clause_within))]
pub fn opens_screen_clause(words: &[Token]) -> bool
    ensures { result ≡ opens screens.screen_clause words.now }
{
    opens_blank(words)
        || opens_erase(words)
        || opens_line_clause(words)
        || opens_column(words)
        || opens_value(words)
        || opens_picture_clause(words)
        || opens_from(words)
        || opens_show_clause(words)
}

#[tactic(auto, unfolding(cob_base::specs::ScreenEntries::show_clause))]
fn opens_show_clause(words: &[Token]) -> bool
    ensures { result ≡ opens screens.show_clause words.now }
{
    opens_to(words)
        || opens_using_item(words)
        || opens_screen_mark(words)
        || opens_foreground(words)
        || opens_background(words)
        || opens_outside_screen(words)
}
