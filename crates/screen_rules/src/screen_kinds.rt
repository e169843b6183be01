ghost use Rattle.std.specs.Prelude.{◌≡◌, ◌||◌, ◌&&◌, not, ℕ, nat_lt, nat_le, Bool, Some, is_some, option_to_list, map, length, IfOk};
ghost use Rattle.std.specs.List.{list_any};
ghost use Rattle.std.specs.Option.{option_copied};
ghost use Rattle.picture_rule.specs.Picture.{number};
ghost use Rattle.cob_value.specs.Moves.{may_move};
ghost use Rattle.data_names.specs.Items.{DataItem};
ghost use Rattle.data_names.specs.Spots.{Spot, picture_of_item};
ghost use Rattle.data_names.specs.Seen.{seen_item};
ghost use Rattle.data_names.specs.Table.{IsTable, items_of};
ghost use Rattle.data_layout.specs.Faults.{level_fits};
ghost use Rattle.screen_rules.specs.ScreenKinds.{has_bad_screen_level, is_no_colour, has_picture_clause, has_text_clause, is_tied, is_full_group, is_half, is_overfull, has_bad_contents, has_bad_clauses, is_screen_of_wrong_kind, has_two_lights, is_bad_move, is_bad_constant, is_bad_sender, is_bad_receiver, is_bad_both_ways, has_bad_move};
ghost use Rattle.entry_clauses.specs.ScreenItems.{ScreenItem};
ghost use Rattle.entry_clauses.specs.SeenScreens.{seen_screen};
ghost use Rattle.entry_clauses.specs.Clauses.{sender, receiver, both_ways};
ghost use Rattle.name_rules.specs.Mentions.{reference_in, is_subscripted};

use cob_base::{ByteText, Constant, NoMemory, Operand, Reference, ScreenClause, ScreenMark};
use cob_value::{may_fill, may_move};
use data_names::{KnownItem, Table};
use entry_clauses::screen_clauses::ScreenClauseKind;
use entry_clauses::{KnownScreen, screen_clauses};
use picture_rule::{Picture, PictureKind};
use std::alloc::Global;

/// Whether an item may be moved into one of this picture; where its own picture is not known, nothing is refused.
fn may_send(alloc: Global, item: KnownItem, to: &Picture) -> bool
    ensures { (spot : Spot DataItem) → spot.item ≡ seen_item item.entry → result ≡ not (is_bad_move (picture_of_item spot) (Some to.now)) }
{
    let text = item.text;
    if item.row.group {
        return may_move(&Picture::group(alloc, 0), to);
    }
    match &text.picture {
        Some(from) => may_move(from, to),
        None => true,
    }
}

/// Whether an item of this picture may be moved into another item.
fn may_receive(alloc: Global, from: &Picture, item: KnownItem) -> bool
    ensures { (spot : Spot DataItem) → spot.item ≡ seen_item item.entry → result ≡ not (is_bad_move (Some from.now) (picture_of_item spot)) }
{
    let text = item.text;
    if item.row.group {
        return may_move(from, &Picture::group(alloc, 0));
    }
    match &text.picture {
        Some(to) => may_move(from, to),
        None => true,
    }
}

/// Whether a constant can't be moved into an item of this picture.
fn is_bad_constant(constant: &Constant, to: &Picture) -> bool
    ensures { result ≡ is_bad_constant constant.now to.now }
{
    match constant {
        Constant::Text(text) => is_long(text),
        Constant::Number(number) => is_bad_number(number.digits, number.decimals, to),
        Constant::Figurative(figure) => !may_fill(*figure, to),
    }
}

/// Whether a text has more bytes than a picture may have.
fn is_long(text: &ByteText) -> bool
    ensures { result ≡ nat_lt 9999 (length text.now) }
{
    text.as_bytes().len() > 9999
}

/// Whether a number of so many digits can't be moved into an item of this picture.
fn is_bad_number(digits: u8, decimals: u8, to: &Picture) -> bool
    ensures { (signed : Bool) → result ≡ (not (nat_lt 0 digits && nat_le digits 18 && nat_le decimals 6 && nat_le decimals digits) || not (may_move (number digits decimals signed) to.now)) }
{
    if !is_literal(digits, decimals) {
        return true;
    }
    is_cut_number(decimals, to)
}

/// Whether a literal may have so many digits, and so many of them after its point.
fn is_literal(digits: u8, decimals: u8) -> bool
    ensures { result ≡ (nat_lt 0 digits && nat_le digits 18 && nat_le decimals 6 && nat_le decimals digits) }
{
    0 < digits && digits <= 18 && decimals <= 6 && decimals <= digits
}

/// Whether a number of so many decimal places can't be moved.
fn is_cut_number(decimals: u8, to: &Picture) -> bool
    ensures { (digits : ℕ) (signed : Bool) → result ≡ not (may_move (number digits decimals signed) to.now) }
{
    decimals > 0 && to.kind == PictureKind::Alphanumeric
}

/// Whether what FROM names can't be moved into an item of this picture.
fn is_bad_sender(
    alloc: Global,
    table: &Table,
    sender: Option<&Operand>,
    to: &Picture,
) -> Result<bool, NoMemory>
    requires { IsTable table.now }
    ensures { IfOk result (λ bad. bad ≡ is_bad_sender (items_of table.now) (option_copied sender.entry) to.now) }
{
    match sender {
        None => Ok(false),
        Some(Operand::Constant(constant)) => Ok(is_bad_constant(constant, to)),
        Some(Operand::Reference(reference)) => match table.found(alloc, reference)? {
            Some(at) => Ok(!may_send(alloc, table.item_at(at), to)),
            None => Ok(false),
        },
    }
}

/// Whether an item of this picture can't be moved into what TO names.
fn is_bad_receiver(
    alloc: Global,
    table: &Table,
    from: &Picture,
    receiver: Option<&Reference>,
) -> Result<bool, NoMemory>
    requires { IsTable table.now }
    ensures { IfOk result (λ bad. bad ≡ is_bad_receiver (items_of table.now) from.now (option_copied receiver.entry)) }
{
    match receiver {
        None => Ok(false),
        Some(reference) => match table.found(alloc, reference)? {
            Some(at) => Ok(!may_receive(alloc, from, table.item_at(at))),
            None => Ok(false),
        },
    }
}

/// Whether an item of this picture can't be moved into what USING names, or the reverse.
fn is_bad_both_ways(
    alloc: Global,
    table: &Table,
    picture: &Picture,
    item: Option<&Reference>,
) -> Result<bool, NoMemory>
    requires { IsTable table.now }
    ensures { IfOk result (λ bad. bad ≡ is_bad_both_ways (items_of table.now) picture.now (option_copied item.entry)) }
{
    match item {
        None => Ok(false),
        Some(reference) => match table.found(alloc, reference)? {
            Some(at) => Ok(
                !may_send(alloc, table.item_at(at), picture)
                    || !may_receive(alloc, picture, table.item_at(at)),
            ),
            None => Ok(false),
        },
    }
}

/// Whether FROM can't be moved into the item's picture, TO out of it, or USING both ways. A picture that is refused is not judged.
fn has_bad_move(alloc: Global, table: &Table, item: &KnownScreen) -> Result<bool, NoMemory>
    requires { IsTable table.now }
    ensures { IfOk result (λ bad. bad ≡ has_bad_move (items_of table.now) (seen_screen item.now)) }
{
    if item.signed {
        return Ok(false);
    }
    let Some(picture) = &item.picture else {
        return Ok(false);
    };
    let clauses = item.entry.clauses.as_slice();
    let sender = is_bad_sender(alloc, table, screen_clauses::sender(clauses), picture)?;
    let receiver = is_bad_receiver(alloc, table, picture, screen_clauses::receiver(clauses))?;
    let both_ways = is_bad_both_ways(alloc, table, picture, screen_clauses::both_ways(clauses))?;
    Ok(sender || receiver || both_ways)
}

fn is_no_colour(colour: Option<u64>) -> bool
    ensures { result ≡ is_no_colour colour }
{
    match colour {
        Some(colour) => 7 < colour,
        None => false,
    }
}

fn has_picture(item: &KnownScreen) -> bool
    ensures { result ≡ has_picture_clause (seen_screen item.now) }
{
    screen_clauses::picture(item.entry.clauses.as_slice()).is_some()
}

fn has_text(item: &KnownScreen) -> bool
    ensures { result ≡ has_text_clause (seen_screen item.now) }
{
    screen_clauses::value(item.entry.clauses.as_slice()).is_some()
}

fn has_sender(item: &KnownScreen) -> bool
    ensures { result ≡ is_some (sender item.now.entry.now.clauses) }
{
    screen_clauses::sender(item.entry.clauses.as_slice()).is_some()
}

fn has_receiver(item: &KnownScreen) -> bool
    ensures { result ≡ is_some (receiver item.now.entry.now.clauses) }
{
    screen_clauses::receiver(item.entry.clauses.as_slice()).is_some()
}

fn has_both_ways(item: &KnownScreen) -> bool
    ensures { result ≡ is_some (both_ways item.now.entry.now.clauses) }
{
    screen_clauses::both_ways(item.entry.clauses.as_slice()).is_some()
}

/// Whether FROM, TO or USING is written.
fn is_tied(item: &KnownScreen) -> bool
    ensures { result ≡ is_tied (seen_screen item.now) }
{
    has_sender(item) || has_receiver(item) || has_both_ways(item)
}

/// Whether a group has PICTURE, VALUE, FROM, TO or USING.
fn is_full_group(item: &KnownScreen) -> bool
    ensures { result ≡ is_full_group (seen_screen item.now) }
{
    item.row.group && (has_picture(item) || has_text(item) || is_tied(item))
}

/// Whether PICTURE stands without FROM, TO and USING, or one of these without PICTURE.
fn is_half(item: &KnownScreen) -> bool
    ensures { result ≡ is_half (seen_screen item.now) }
{
    (has_picture(item) && !is_tied(item)) || (!has_picture(item) && is_tied(item))
}

/// Whether VALUE stands with PICTURE, or USING with FROM or TO.
fn is_overfull(item: &KnownScreen) -> bool
    ensures { result ≡ is_overfull (seen_screen item.now) }
{
    (has_text(item) && has_picture(item))
        || (has_both_ways(item) && (has_sender(item) || has_receiver(item)))
}

/// Whether PICTURE, VALUE, FROM, TO and USING do not go together, or stand on a group.
fn has_bad_contents(item: &KnownScreen) -> bool
    ensures { result ≡ has_bad_contents (seen_screen item.now) }
{
    is_full_group(item) || is_half(item) || is_overfull(item)
}

fn is_subscripted(reference: Option<&Reference>) -> bool
    ensures { result ≡ list_any is_subscripted (option_to_list (option_copied reference.entry)) }
{
    match reference {
        Some(reference) => reference.subscript.is_some(),
        None => false,
    }
}

fn is_subscripted_operand(operand: Option<&Operand>) -> bool
    ensures { result ≡ list_any is_subscripted (reference_in (option_copied operand.entry)) }
{
    match operand {
        Some(Operand::Reference(reference)) => reference.subscript.is_some(),
        Some(Operand::Constant(_)) => false,
        None => false,
    }
}

/// Whether HIGHLIGHT stands with LOWLIGHT.
fn has_two_lights(clauses: &[ScreenClause]) -> bool
    ensures { result ≡ has_two_lights clauses.now }
{
    screen_clauses::has(clauses, ScreenClauseKind::Mark(ScreenMark::Highlight))
        && screen_clauses::has(clauses, ScreenClauseKind::Mark(ScreenMark::Lowlight))
}

fn has_subscript(clauses: &[ScreenClause]) -> bool
    ensures { result ≡ (list_any is_subscripted (reference_in (sender clauses.now)) || list_any is_subscripted (option_to_list (receiver clauses.now)) || list_any is_subscripted (option_to_list (both_ways clauses.now))) }
{
    is_subscripted_operand(screen_clauses::sender(clauses))
        || is_subscripted(screen_clauses::receiver(clauses))
        || is_subscripted(screen_clauses::both_ways(clauses))
}

/// Whether HIGHLIGHT stands with LOWLIGHT, a colour is not 0 to 7, or a reference has a subscript.
fn has_bad_clauses(item: &KnownScreen) -> bool
    ensures { result ≡ has_bad_clauses (seen_screen item.now) }
{
    let clauses = item.entry.clauses.as_slice();
    has_two_lights(clauses)
        || is_no_colour(screen_clauses::foreground(clauses))
        || is_no_colour(screen_clauses::background(clauses))
        || has_subscript(clauses)
}

fn has_bad_level(item: &KnownScreen) -> bool
    ensures { (spot : Spot ScreenItem) → spot.item ≡ seen_screen item.now → item.now.level_fits ≡ level_fits (map (λ other. other.row) spot.before) spot.item.row → result ≡ has_bad_screen_level spot }
{
    !item.level_fits || item.row.level == 77
}

/// Whether a clause is written twice, or clauses do not go together.
fn is_badly_written(item: &KnownScreen) -> bool
    ensures { result ≡ (item.now.row.twice || has_bad_contents (seen_screen item.now) || has_bad_clauses (seen_screen item.now)) }
{
    item.row.twice || has_bad_contents(item) || has_bad_clauses(item)
}

/// Whether an entry of a screen is of the wrong kind.
pub fn is_screen_of_wrong_kind(
    alloc: Global,
    table: &Table,
    item: &KnownScreen,
) -> Result<bool, NoMemory>
    requires { IsTable table.now }
    ensures { (spot : Spot ScreenItem) → spot.item ≡ seen_screen item.now → item.now.level_fits ≡ level_fits (map (λ other. other.row) spot.before) spot.item.row → IfOk result (λ wrong. wrong ≡ is_screen_of_wrong_kind (items_of table.now) spot) }
{
    if has_bad_level(item) {
        return Ok(true);
    }
    if is_badly_written(item) {
        return Ok(true);
    }
    has_bad_move(alloc, table, item)
}
