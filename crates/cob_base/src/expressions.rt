use crate::{Boxed, Items, Number, Reference};

/// A sign, or the operator of an addition or a subtraction.
#[derive(Clone, Copy, Debug, PartialEq, Eq)]
pub enum Sign {
    Plus,
    Minus,
}

/// The operator of a multiplication or a division.
#[derive(Clone, Copy, Debug, PartialEq, Eq)]
pub enum Scale {
    /// `*`
    Times,
    /// `/`
    Over,
}

/// An arithmetic expression, or one of its terms or factors. Operations of one rank are done from left to right, in the
/// order of their lists. Parentheses leave no trace but the expression between them.
#[derive(Drop)]
pub enum Expr {
    /// Terms: the first, and each further one with the operator before it.
    Sum(Boxed<Expr>, Items<(Sign, Expr)>),
    /// A term: its first factor, and each further one with the operator before it.
    Product(Boxed<Expr>, Items<(Scale, Expr)>),
    /// A factor, with its sign where one was written.
    Signed(Option<Sign>, Boxed<Expr>),
    Reference(Reference),
    Number(Number),
    /// ZERO.
    Zero,
}
