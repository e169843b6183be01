use crate::{ByteText, Front, Items, Line, Located, Statement};

/// A sentence.
#[derive(Drop)]
pub enum Sentence {
    /// Statements, one or more, and a period.
    Statements(Items<Located<Statement>>),
    /// A section header or DECLARATIVES, which are read and refused, with all words up to the period.
    Outside,
}

/// A paragraph. The sentences before the first header are a paragraph without a name.
#[derive(Drop)]
pub struct Paragraph {
    /// The line of its header; of a paragraph without a name that of its first sentence.
    pub line: Line,
    pub name: Option<ByteText>,
    pub sentences: Items<Located<Sentence>>,
}

/// END PROGRAM with the program's name.
#[derive(Drop)]
pub struct EndProgram {
    /// The line of its first word.
    pub line: Line,
    pub name: ByteText,
}

/// The procedure division.
#[derive(Drop)]
pub struct Procedure {
    pub paragraphs: Items<Paragraph>,
    pub end_program: Option<EndProgram>,
}

/// A program.
#[derive(Drop)]
pub struct Program {
    pub front: Front,
    pub paragraphs: Items<Paragraph>,
    pub end_program: Option<EndProgram>,
}
