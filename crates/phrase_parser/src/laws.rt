//! Laws of reading: they hold for every form of entries, and are said of those that programs are written in.

ghost use Rattle.cob_base.specs.Front.{front};
ghost use Rattle.cob_base.specs.Procedure.{procedure, program};
ghost use Rattle.phrase_parser.specs.Laws.{IsDefinite, IsExact};

/// Reading gives exactly what entries read as, and stops exactly where they stop.
pub fn reading_is_exact()
    ensures fronts { IsExact front }
    ensures procedures { IsExact procedure }
    ensures programs { IsExact program }
{}

/// Entries read as one thing at most, or stop at one place for one reason at most, and never both.
pub fn entries_are_definite()
    ensures fronts { IsDefinite front }
    ensures procedures { IsDefinite procedure }
    ensures programs { IsDefinite program }
{}
