//! Literals that are closed.

ghost use Rattle.std.specs.Prelude.{◌≡◌, length, IfOk, false};
ghost use Rattle.cobol_words.specs.Quoted.{quoted};
ghost use Rattle.cobol_words.specs.Taking.{FoundAs, text_of};
ghost use Rattle.cobol_words.specs.Cutting.{closed_with};
ghost use Rattle.cobol_words.specs.Words.{found_in_quotes};

use crate::cell::Cell;
use crate::fault::WordFault;
use cob_base::{ByteText, NoMemory, Word};
use std::alloc::Global;

/// What a closed literal stands for, of the cells behind its opening mark.
pub fn literal_of(alloc: Global, mark: Cell, cells: &[Cell]) -> Result<Word, WordFault>
    requires { (quoted mark.byte false (text_of cells.now)).more ≡ length cells.now }
    ensures { FoundAs mark.line result (found_in_quotes mark (closed_with (quoted mark.byte false (text_of cells.now)).bytes)) }
{
    let bytes = undoubled(alloc, mark.byte, cells)?;
    if bytes.is_empty() {
        return Err(WordFault::BadCharacter(mark.line));
    }
    if bytes.len() > 160 {
        return Err(WordFault::LongLiteral(mark.line));
    }
    Ok(Word::Text(ByteText::from_vec(bytes)))
}

/// The bytes of a literal behind its opening mark, with a doubled mark as one and without the closing mark.
fn undoubled(alloc: Global, mark: u8, cells: &[Cell]) -> Result<Vec<u8>, NoMemory>
    requires { (quoted mark false (text_of cells.now)).more ≡ length cells.now }
    ensures { IfOk result (λ bytes. bytes.items ≡ (quoted mark false (text_of cells.now)).bytes) }
{
    let mut bytes = Vec::new(alloc);
    let mut marked = false;
    for cell in cells {
        if cell.byte == mark && !marked {
            marked = true;
        } else {
            bytes.push(cell.byte)?;
            marked = false;
        }
    }
    Ok(bytes)
}
