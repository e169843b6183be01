ghost use Rattle.std.specs.Prelude.{◌≡◌, List};
ghost use Rattle.cob_base.specs.declared.divisions.Front.{Front};
ghost use Rattle.entry_clauses.specs.ScreenItems.{ScreenItem, AreScreenItems};

/// A front has one list of entries of screens.
pub fn screens_are_definite()
    ensures { (front : Front) (screens others : List ScreenItem) → AreScreenItems front screens → AreScreenItems front others → screens ≡ others }
{}
