ghost use Rattle.std.specs.Prelude.{◌≡◌, ℕ, List};
ghost use Rattle.cob_base.specs.declared.divisions.Front.{Front};
ghost use Rattle.data_layout.specs.Rows.{sections};
ghost use Rattle.data_layout.specs.Outcome.{IsLayoutOf};
ghost use Rattle.data_layout.specs.declared.layout.Layout.{Layout};
ghost use Rattle.opening_storage.specs.Opening.{IsOpeningOf};

/// A program has one opening at most: every byte of its storage is determined.
pub fn openings_are_definite()
    ensures { (front : Front) (layout : Layout) (bytes others : List ℕ) → IsLayoutOf (sections front) layout → IsOpeningOf front layout bytes → IsOpeningOf front layout others → bytes ≡ others }
{}
