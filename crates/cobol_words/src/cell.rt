ghost use Rattle.std.specs.Prelude.{◌≡◌, ◌==◌, ◌&&◌, ◌||◌, ◌∷◌, map, not, IfOk};
ghost use Rattle.std.specs.List.{list_all, list_any, prefix_len};
ghost use Rattle.cobol_words.specs.Runs.{begins_run, is_digit, is_letter, is_run_byte};

use cob_base::{Line, NoMemory};
use std::alloc::Global;

/// A byte of the program text with the line that it stands in.
#[derive(Clone, Copy, Debug)]
pub struct Cell {
    pub byte: u8,
    pub line: Line,
}

/// The bytes of cells.
pub fn bytes_of(alloc: Global, cells: &[Cell]) -> Result<Vec<u8>, NoMemory>
    ensures { IfOk result (λ bytes. bytes.items ≡ map (λ cell. cell.byte) cells.now) }
{
    Ok(cells.iter().map(|cell| cell.byte).collect(alloc)?)
}

/// A byte and the bytes of cells.
pub fn bytes_with(alloc: Global, byte: u8, cells: &[Cell]) -> Result<Vec<u8>, NoMemory>
    ensures { IfOk result (λ bytes. bytes.items ≡ byte ∷ map (λ cell. cell.byte) cells.now) }
{
    let mut bytes = Vec::new(alloc);
    bytes.push(byte)?;
    let more = bytes_of(alloc, cells)?;
    bytes.extend_from_slice(more.as_slice())?;
    Ok(bytes)
}

pub fn is_letter(byte: u8) -> bool
    ensures { result ≡ is_letter byte }
{
    (65 <= byte && byte <= 90) || (97 <= byte && byte <= 122)
}

pub fn is_digit(byte: u8) -> bool
    ensures { result ≡ is_digit byte }
{
    48 <= byte && byte <= 57
}

/// Whether a run of letters, digits, `-` and `_` may begin with this byte.
pub fn begins_run(byte: u8) -> bool
    ensures { result ≡ begins_run byte }
{
    is_letter(byte) || is_digit(byte)
}

/// Whether a run of letters, digits, `-` and `_` has this byte.
pub fn is_run_byte(byte: u8) -> bool
    ensures { result ≡ is_run_byte byte }
{
    is_letter(byte) || is_digit(byte) || byte == b'-' || byte == b'_'
}

/// How many cells at the front belong to a run.
pub fn run_len(cells: &[Cell]) -> usize
    ensures { result ≡ prefix_len (λ cell. is_run_byte cell.byte) cells.now }
{
    for (len, cell) in cells.iter().enumerate() {
        if !is_run_byte(cell.byte) {
            return len;
        }
    }
    cells.len()
}

/// How many cells at the front are digits.
pub fn digits_len(cells: &[Cell]) -> usize
    ensures { result ≡ prefix_len (λ cell. is_digit cell.byte) cells.now }
{
    for (len, cell) in cells.iter().enumerate() {
        if !is_digit(cell.byte) {
            return len;
        }
    }
    cells.len()
}

pub fn are_digits(bytes: &[u8]) -> bool
    ensures { result ≡ list_all is_digit bytes.now }
{
    bytes.iter().all(|byte| is_digit(*byte))
}
