ghost use Rattle.std.specs.Prelude.{◌≡◌, ◌++◌, map, filter, OnOk};
ghost use Rattle.data_layout.specs.Faults.{is_unreadable};
ghost use Rattle.data_names.specs.Seen.{seen_item};
ghost use Rattle.front_rules.specs.Pictures.{has_bad_screen_picture};
ghost use Rattle.name_rules.specs.Faults.{faults_at};
ghost use Rattle.entry_clauses.specs.SeenScreens.{seen_screen};

use cob_base::NoMemory;
use data_names::KnownItem;
use entry_clauses::{KnownScreen, is_unreadable};
use name_rules::Faults;

/// Notes each text of an item that is no picture.
pub fn note_item_pictures(faults: &mut Faults, items: &[KnownItem]) -> Result<(), NoMemory>
    ensures { OnOk result (faults.new.found.items ≡ faults.old.found.items ++ faults_at 4 (map (λ item. item.row.line) (filter (λ item. is_unreadable item.row.spelled) (map seen_item items.now)))) }
{
    for item in items {
        faults.note(4, item.row.line, is_unreadable(item.row.spelled))?;
    }
    Ok(())
}

/// Notes each text of a screen that is no picture, and each signed picture there.
pub fn note_screen_pictures(faults: &mut Faults, screens: &[KnownScreen]) -> Result<(), NoMemory>
    ensures { OnOk result (faults.new.found.items ≡ faults.old.found.items ++ faults_at 4 (map (λ item. item.row.line) (filter has_bad_screen_picture (map seen_screen screens.now)))) }
{
    for item in screens {
        faults.note(4, item.row.line, has_bad_picture(item))?;
    }
    Ok(())
}

fn has_bad_picture(item: &KnownScreen) -> bool
    ensures { result ≡ has_bad_screen_picture (seen_screen item.now) }
{
    is_unreadable(item.row.spelled) || item.signed
}
