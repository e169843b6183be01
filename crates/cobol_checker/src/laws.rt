ghost use Rattle.std.specs.Prelude.{◌≡◌, All};
ghost use Rattle.cob_base.specs.declared.paragraphs.Program.{Program};
ghost use Rattle.name_rules.specs.declared.fault.Fault.{Fault};
ghost use Rattle.sharing_table.specs.Sound.{IsSoundShape};
ghost use Rattle.cobol_checker.specs.Outcome.{CheckedValue, IsInProfile, KeepsRules, IsRefused};

/// A program keeps the rules or is refused, never both, and it is refused for one fault.
pub fn checks_are_definite()
    ensures never_both { (program : Program) (fault : Fault) → KeepsRules program → IsRefused program fault → ⊥ }
    ensures one_fault { (program : Program) (fault other : Fault) → IsRefused program fault → IsRefused program other → fault ≡ other }
{}

/// The shape of each file of a program in the profile is sound: its keys lie in its record, and no two of them at one place.
pub fn shapes_are_sound()
    ensures { (checked : CheckedValue) → IsInProfile checked → All IsSoundShape checked.shapes }
{}
