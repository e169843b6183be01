//! The words of the text so far, and what is still open there.

ghost use Rattle.std.specs.Prelude.{◌≡◌, ◌==◌, ◌&&◌, ◌++◌, ◌∷◌, [], List, OnOk, IfOk, true, false};
ghost use Rattle.cobol_words.specs.declared.cutter.Stage.TheVariants as stages;
ghost use Rattle.cobol_words.specs.Joined.{Piece, goes_on_with};
ghost use Rattle.cobol_words.specs.Taking.{GoesOn, is_quote};
ghost use Rattle.cobol_words.specs.Cutting.{Breaks, IsClosed, IsCommentTo, IsCutter, IsOpen, IsOutside, ahead, opening};
ghost use Rattle.cobol_words.specs.Words.{at_start, found_in};

use crate::before::{Before, Wish};
use crate::cell::Cell;
use crate::chunk::{cut_all, cut_words};
use crate::fault::WordFault;
use crate::literal::literal_of;
use crate::picture::wants_none;
use cob_base::{Items, Spoken};
use std::alloc::Global;

/// What the cells are that are not cut yet.
#[derive(Clone, Copy, Debug)]
pub enum Stage {
    /// They stand side by side, and are cut once it is known what follows them.
    Outside,
    /// They stand behind the opening mark of a literal, which is open.
    Literal(Cell),
    /// They stand behind the opening mark of a literal, and its mark is the last of them: it is closed unless the mark
    /// comes once more.
    Closed(Cell),
    /// There are none, and a comment began with this `*` and `>`.
    Comment(Cell, Cell),
}

/// The words of the text so far.
#[derive(Debug, Drop)]
pub struct Cutter {
    pub words: Items<Spoken>,
    /// What stands before what is not cut yet.
    pub before: Before,
    pub stage: Stage,
    /// The cells that are not cut yet.
    pub cells: Vec<Cell>,
}

impl Cutter {
    pub fn new(alloc: Global) -> Cutter
        ensures kept { IsCutter result }
        ensures found { (text : List Piece) → ahead result text ≡ found_in at_start 0 text }
    {
        Cutter {
            words: Items::new(alloc),
            before: Before {
                wish: Wish::NoPicture,
                spaced: true,
            },
            stage: Stage::Outside,
            cells: Vec::new(alloc),
        }
    }

    /// Takes the next byte of the text.
    pub fn read(&mut self, alloc: Global, cell: Cell) -> Result<(), WordFault>
        requires { IsCutter self.old }
        ensures kept { OnOk result (IsCutter self.new) }
        ensures found { (text : List Piece) → GoesOn result (λ _. ahead self.new text) (ahead self.old (Piece.at cell ∷ text)) }
    {
        match self.stage {
            Stage::Outside => self.read_outside(alloc, cell),
            Stage::Literal(mark) => self.read_literal(mark, cell),
            Stage::Closed(mark) => self.read_closed(alloc, mark, cell),
            Stage::Comment(_, end) => self.read_comment(alloc, end, cell),
        }
    }

    fn read_outside(&mut self, alloc: Global, cell: Cell) -> Result<(), WordFault>
        requires stage { self.old.stage ≡ stages.Outside }
        requires outside { IsOutside self.old.before self.old.cells.items }
        ensures kept { OnOk result (IsCutter self.new) }
        ensures found { (text : List Piece) → GoesOn result (λ _. ahead self.new text) (ahead self.old (Piece.at cell ∷ text)) }
    {
        if cell.byte == b' ' {
            return self.end_cells(alloc);
        }
        if is_quote(cell.byte) {
            return self.read_quote(alloc, cell);
        }
        if cell.byte == b'>' {
            return self.read_greater(alloc, cell);
        }
        self.push(cell)
    }

    fn push(&mut self, cell: Cell) -> Result<(), WordFault>
        ensures words { self.new.words ≡ self.old.words }
        ensures before { self.new.before ≡ self.old.before }
        ensures stage { self.new.stage ≡ self.old.stage }
        ensures cells { OnOk result (self.new.cells.items ≡ self.old.cells.items ++ cell ∷ []) }
        ensures memory { GoesOn result (λ _. []) [] }
    {
        self.cells.push(cell)?;
        Ok(())
    }

    /// Cuts all cells: a space, a line end or a comment follows.
    fn end_cells(&mut self, alloc: Global) -> Result<(), WordFault>
        requires stage { self.old.stage ≡ stages.Outside }
        requires outside { IsOutside self.old.before self.old.cells.items }
        ensures stage { OnOk result (self.new.stage ≡ stages.Outside) }
        ensures cells { OnOk result (self.new.cells.items ≡ []) }
        ensures spaced { OnOk result (self.new.before.spaced ≡ true) }
        ensures found { (text : List Piece) → Breaks text → GoesOn result (λ _. ahead self.new text) (ahead self.old text) }
    {
        let before = cut_all(alloc, &mut self.words, self.before, self.cells.as_slice())?;
        self.before = Before {
            wish: before.wish,
            spaced: true,
        };
        self.cells.clear();
        Ok(())
    }

    /// A quote opens a literal, unless a picture is wanted.
    fn read_quote(&mut self, alloc: Global, cell: Cell) -> Result<(), WordFault>
        requires stage { self.old.stage ≡ stages.Outside }
        requires outside { IsOutside self.old.before self.old.cells.items }
        requires quote { is_quote cell.byte ≡ true }
        ensures kept { OnOk result (IsCutter self.new) }
        ensures found { (text : List Piece) → GoesOn result (λ _. ahead self.new text) (ahead self.old (Piece.at cell ∷ text)) }
    {
        if !wants_none(self.before.wish) {
            return self.push(cell);
        }
        let (before, rest) = cut_words(alloc, &mut self.words, self.before, self.cells.as_slice())?;
        let rest = Vec::from_slice(alloc, rest)?;
        self.before = before;
        self.cells = rest;
        if wants_none(before.wish) {
            self.stage = Stage::Literal(cell);
            return Ok(());
        }
        self.push(cell)
    }

    /// Behind `*` it begins a comment.
    fn read_greater(&mut self, alloc: Global, cell: Cell) -> Result<(), WordFault>
        requires stage { self.old.stage ≡ stages.Outside }
        requires outside { IsOutside self.old.before self.old.cells.items }
        requires greater { cell.byte ≡ 62 }
        ensures kept { OnOk result (IsCutter self.new) }
        ensures found { (text : List Piece) → GoesOn result (λ _. ahead self.new text) (ahead self.old (Piece.at cell ∷ text)) }
    {
        match self.cells.pop() {
            Some(last) => self.read_greater_behind(alloc, last, cell),
            None => self.push(cell),
        }
    }

    /// Takes `>` behind a cell that was taken off the others.
    fn read_greater_behind(
        &mut self,
        alloc: Global,
        last: Cell,
        cell: Cell,
    ) -> Result<(), WordFault>
        requires stage { self.old.stage ≡ stages.Outside }
        requires outside { IsOutside self.old.before (self.old.cells.items ++ last ∷ []) }
        requires greater { cell.byte ≡ 62 }
        ensures kept { OnOk result (IsCutter self.new) }
        ensures found { (text : List Piece) → GoesOn result (λ _. ahead self.new text) (ahead self.old (Piece.at last ∷ Piece.at cell ∷ text)) }
    {
        if last.byte != b'*' {
            self.push(last)?;
            return self.push(cell);
        }
        self.end_cells(alloc)?;
        self.stage = Stage::Comment(last, cell);
        Ok(())
    }

    /// Takes a byte of an open literal.
    pub fn read_literal(&mut self, mark: Cell, cell: Cell) -> Result<(), WordFault>
        requires stage { self.old.stage ≡ stages.Literal mark }
        requires literal { IsOpen mark self.old.before self.old.cells.items }
        ensures kept { OnOk result (IsCutter self.new) }
        ensures stage { (cell.byte == mark.byte) ≡ false → self.new.stage ≡ self.old.stage }
        ensures found { (text : List Piece) → GoesOn result (λ _. ahead self.new text) (ahead self.old (Piece.at cell ∷ text)) }
    {
        if cell.byte == mark.byte {
            self.stage = Stage::Closed(mark);
            return self.push(cell);
        }
        self.push(cell)
    }

    fn read_closed(&mut self, alloc: Global, mark: Cell, cell: Cell) -> Result<(), WordFault>
        requires stage { self.old.stage ≡ stages.Closed mark }
        requires closed { IsClosed mark self.old.before self.old.cells.items }
        ensures kept { OnOk result (IsCutter self.new) }
        ensures found { (text : List Piece) → GoesOn result (λ _. ahead self.new text) (ahead self.old (Piece.at cell ∷ text)) }
    {
        if cell.byte == mark.byte {
            self.stage = Stage::Literal(mark);
            return self.push(cell);
        }
        self.end_literal(alloc, mark)?;
        self.read_outside(alloc, cell)
    }

    /// Cuts the literal.
    fn end_literal(&mut self, alloc: Global, mark: Cell) -> Result<(), WordFault>
        requires stage { self.old.stage ≡ stages.Closed mark }
        requires closed { IsClosed mark self.old.before self.old.cells.items }
        ensures stage { OnOk result (self.new.stage ≡ stages.Outside) }
        ensures cells { OnOk result (self.new.cells.items ≡ []) }
        ensures found { (text : List Piece) → goes_on_with mark.byte text ≡ false → GoesOn result (λ _. ahead self.new text) (ahead self.old text) }
    {
        let word = literal_of(alloc, mark, self.cells.as_slice())?;
        self.words.push(Spoken {
            line: mark.line,
            word,
        })?;
        self.before = Before {
            wish: Wish::NoPicture,
            spaced: false,
        };
        self.stage = Stage::Outside;
        self.cells.clear();
        Ok(())
    }

    /// A comment has the rest of the line in which its `>` stands.
    fn read_comment(&mut self, alloc: Global, end: Cell, cell: Cell) -> Result<(), WordFault>
        requires kept { IsCutter self.old }
        requires stage { IsCommentTo end self.old.stage }
        ensures kept { OnOk result (IsCutter self.new) }
        ensures found { (text : List Piece) → GoesOn result (λ _. ahead self.new text) (ahead self.old (Piece.at cell ∷ text)) }
    {
        if cell.line.0 == end.line.0 {
            return Ok(());
        }
        self.stage = Stage::Outside;
        self.read_outside(alloc, cell)
    }

    /// Takes the end of a line after which the text isn't joined on.
    pub fn end_line(&mut self, alloc: Global) -> Result<(), WordFault>
        requires { IsCutter self.old }
        ensures kept { OnOk result (IsCutter self.new) }
        ensures cut { OnOk result (opening self.new.stage ++ self.new.cells.items ≡ []) }
        ensures found { (text : List Piece) → GoesOn result (λ _. ahead self.new text) (ahead self.old (Piece.line_end ∷ text)) }
    {
        match self.stage {
            Stage::Outside => self.end_cells(alloc),
            Stage::Literal(mark) => Err(WordFault::OpenLiteral(mark.line)),
            Stage::Closed(mark) => {
                self.end_literal(alloc, mark)?;
                self.end_cells(alloc)
            }
            Stage::Comment(_, _) => {
                self.stage = Stage::Outside;
                Ok(())
            }
        }
    }
}

fn is_quote(byte: u8) -> bool
    ensures { result ≡ is_quote byte }
{
    byte == b'"' || byte == b'\''
}
