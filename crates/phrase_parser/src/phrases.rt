//! Phrases that the divisions share.

ghost use Rattle.std.specs.Prelude.{◌≡◌};
ghost use Rattle.cob_base.specs.FileEntries as files;
ghost use Rattle.phrase_parser.specs.Choices.{sharing_at};
ghost use Rattle.phrase_parser.specs.Reading.{read, or_no_fit, seen_rest};

use crate::words::noise;
use cob_base::{Keyword, Sharing, Token, Verb};

/// `ALL [OTHER] | NO [OTHER] | READ ONLY`
#[tactic(auto, using(crate::proofs::Dispatch::sharing_at_is))]
pub fn sharing(words: &[Token]) -> Option<(Sharing, &[Token])>
    ensures { read files.sharing words.now ≡ or_no_fit (seen_rest result) }
{
    sharing_by_word(words)
}

#[tactic(auto, unfolding(crate::specs::Choices::sharing_at))]
fn sharing_by_word(words: &[Token]) -> Option<(Sharing, &[Token])>
    ensures { sharing_at words.now ≡ or_no_fit (seen_rest result) }
{
    match words {
        [Token::Key(Keyword::All), rest @ ..] => {
            let (_other, rest) = noise(rest, Keyword::Other);
            Some((Sharing::AllOther, rest))
        }
        [Token::Key(Keyword::No), rest @ ..] => {
            let (_other, rest) = noise(rest, Keyword::Other);
            Some((Sharing::NoOther, rest))
        }
        [
            Token::Verb(Verb::Read, _),
            Token::Key(Keyword::Only),
            rest @ ..,
        ] => Some((Sharing::ReadOnly, rest)),
        _ => None,
    }
}
