ghost use Rattle.std.specs.Prelude.{◌≡◌, ◌&&◌, ◌||◌, not, ◌++◌, All, map, filter, is_some, OnOk};
ghost use Rattle.std.specs.Option.{option_copied};
ghost use Rattle.cob_base.specs.declared.divisions.Front.{Front};
ghost use Rattle.data_names.specs.Items.{DataItem};
ghost use Rattle.data_names.specs.References.{found};
ghost use Rattle.data_names.specs.Table.{IsTable, items_of};
ghost use Rattle.name_rules.specs.SeenMentions.{AreMentions, IsFoundMention, seen_mention};
ghost use Rattle.name_rules.specs.Subscripts.{is_miscounted, miscounted_subscripts};
ghost use Rattle.name_rules.specs.Faults.{faults_at};

use crate::faults::Faults;
use crate::mentions::{Mention, Mentions};
use cob_base::NoMemory;
use data_names::{Found, Table};

/// Notes each reference with a subscript to an item without OCCURS in or above it, and each without one to an item with OCCURS.
pub fn note_miscounted(
    faults: &mut Faults,
    table: &Table,
    mentions: &Mentions,
) -> Result<(), NoMemory>
    requires table { IsTable table.now }
    requires references { All (IsFoundMention (items_of table.now)) mentions.now.references.items }
    requires subscripts { All (IsFoundMention (items_of table.now)) mentions.now.subscripts.items }
    ensures { (front : Front) → AreMentions front (items_of table.now) mentions.now → OnOk result (faults.new.found.items ≡ faults.old.found.items ++ faults_at 13 (miscounted_subscripts front (items_of table.now))) }
{
    note_miscounted_in(faults, table, mentions.references.as_slice())?;
    note_miscounted_in(faults, table, mentions.subscripts.as_slice())?;
    Ok(())
}

/// Notes those of some references that have a subscript where none is wanted, or none where one is.
pub fn note_miscounted_in(
    faults: &mut Faults,
    table: &Table,
    mentions: &[Mention],
) -> Result<(), NoMemory>
    requires table { IsTable table.now }
    requires found { All (IsFoundMention (items_of table.now)) mentions.now }
    ensures { OnOk result (faults.new.found.items ≡ faults.old.found.items ++ faults_at 13 (map (λ one. one.line) (filter (λ one. is_miscounted (is_some one.reference.subscript) (found (items_of table.now) one.reference)) (map seen_mention mentions.now)))) }
{
    for mention in mentions {
        faults.note(13, mention.line, is_miscounted(table, mention))?;
    }
    Ok(())
}

/// Whether a reference has a subscript that its item does not want, or none where it wants one.
fn is_miscounted(table: &Table, mention: &Mention) -> bool
    requires table { IsTable table.now }
    requires found { IsFoundMention (items_of table.now) mention.now }
    ensures { result ≡ is_miscounted (is_some (option_copied mention.now.subscript)) (found (items_of table.now) (seen_mention mention.now).reference) }
{
    match mention.found {
        Found::One(at) => is_unlike(mention.subscript.is_some(), table.facts_at(at).table),
        Found::Nothing => false,
        Found::Several => false,
    }
}

fn is_unlike(subscripted: bool, table: bool) -> bool
    ensures { result ≡ ((subscripted && not table) || (not subscripted && table)) }
{
    subscripted != table
}
