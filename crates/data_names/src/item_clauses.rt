ghost use Rattle.std.specs.Prelude.{◌≡◌};
ghost use Rattle.std.specs.Option.{option_copied};
ghost use Rattle.data_layout.specs.Rows.{picture_text};
ghost use Rattle.data_names.specs.Clauses.{value_clause};

use cob_base::{ByteText, Constant, ItemClause};

/// The text after PICTURE.
pub fn picture(clauses: &[ItemClause]) -> Option<&ByteText>
    ensures { option_copied result ≡ picture_text clauses.now }
{
    for clause in clauses {
        if let ItemClause::Picture(text) = clause {
            return Some(text);
        }
    }
    None
}

/// What VALUE names.
pub fn value(clauses: &[ItemClause]) -> Option<&Constant>
    ensures { option_copied result ≡ value_clause clauses.now }
{
    for clause in clauses {
        if let ItemClause::Value(value) = clause {
            return Some(value);
        }
    }
    None
}
