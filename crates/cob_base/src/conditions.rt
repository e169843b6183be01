use crate::{Boxed, Items, Operand, Reference};

/// A relation between two operands.
#[derive(Clone, Copy, Debug, PartialEq, Eq)]
pub enum Relation {
    Equal,
    Less,
    Greater,
    LessOrEqual,
    GreaterOrEqual,
}

/// A condition. Parentheses leave no trace but the condition between them.
#[derive(Drop)]
pub enum Cond {
    /// Conditions with OR between them, one or more: one of them holds.
    Or(Items<Cond>),
    /// Conditions with AND between them, one or more: all of them hold.
    And(Items<Cond>),
    /// NOT before a condition: it does not hold.
    Not(Boxed<Cond>),
    /// A relation condition. `negated` says that NOT stands before the relation.
    Relation {
        left: Operand,
        negated: bool,
        relation: Relation,
        right: Operand,
    },
    /// The class condition NUMERIC. `negated` says that NOT stands before it.
    Numeric {
        item: Reference,
        negated: bool,
    },
    /// The name of an 88 entry.
    Name(Reference),
}
