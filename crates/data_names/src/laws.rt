ghost use Rattle.std.specs.Prelude.{◌≡◌, ℕ, List};
ghost use Rattle.cob_base.specs.declared.divisions.Front.{Front};
ghost use Rattle.picture_rule.specs.Picture.{Form};
ghost use Rattle.picture_rule.specs.Text.{Spells};
ghost use Rattle.data_names.specs.Items.{DataItem, AreDataItems};

/// A text is one picture at most.
pub fn pictures_are_definite()
    ensures { (text marks other : List ℕ) (form second : Form) → Spells text marks form → Spells text other second → (marks ≡ other) × (form ≡ second) }
{}

/// A front has one list of items.
pub fn items_are_definite()
    ensures { (front : Front) (items others : List DataItem) → AreDataItems front items → AreDataItems front others → items ≡ others }
{}
