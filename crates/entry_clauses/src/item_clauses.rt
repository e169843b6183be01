ghost use Rattle.std.specs.Prelude.{◌≡◌};
ghost use Rattle.std.specs.List.{list_any};
ghost use Rattle.entry_clauses.specs.Clauses.{is_outside_of_items, has_leading_sign};

use cob_base::{ItemClause, SignSide};

/// Whether a clause is left out of the language.
fn is_outside(clause: &ItemClause) -> bool
    ensures { result ≡ is_outside_of_items clause.now }
{
    match clause {
        ItemClause::Outside => true,
        _ => false,
    }
}

/// Whether the SIGN clause is LEADING without SEPARATE.
pub fn has_leading_sign(clauses: &[ItemClause]) -> bool
    ensures { result ≡ has_leading_sign clauses.now }
{
    for clause in clauses {
        if let ItemClause::Sign { side, separate } = clause {
            return match side {
                SignSide::Leading => !*separate,
                SignSide::Trailing => false,
            };
        }
    }
    false
}

/// Whether an outside clause is written.
pub fn has_outside(clauses: &[ItemClause]) -> bool
    ensures { result ≡ list_any is_outside_of_items clauses.now }
{
    clauses.iter().any(|clause| is_outside(clause))
}
