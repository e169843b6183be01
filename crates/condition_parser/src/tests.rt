//! One phrase of each sort, as the grammar has it.

use crate::{cond, expr, optional_repeated, relation};
use cob_base::{Cond, Expr, Keyword, Loop, Mark, Relation, Test, Token};

/// `GREATER THAN`, and a period.
const GREATER: [Token; 3] = [
    Token::Key(Keyword::Greater),
    Token::Key(Keyword::Than),
    Token::Stop,
];

/// `- (ZERO)`
const NEGATIVE: [Token; 4] = [
    Token::Mark(Mark::Minus),
    Token::Mark(Mark::LeftParenthesis),
    Token::Key(Keyword::Zero),
    Token::Mark(Mark::RightParenthesis),
];

/// `ZERO = SPACE OR ZERO < SPACE AND SPACE = ZERO`
const OR_AND: [Token; 11] = [
    Token::Key(Keyword::Zero),
    Token::Mark(Mark::Equal),
    Token::Key(Keyword::Space),
    Token::Key(Keyword::Or),
    Token::Key(Keyword::Zero),
    Token::Mark(Mark::Less),
    Token::Key(Keyword::Space),
    Token::Key(Keyword::And),
    Token::Key(Keyword::Space),
    Token::Mark(Mark::Equal),
    Token::Key(Keyword::Zero),
];

/// `WITH TEST AFTER UNTIL ZERO = SPACE`
const UNTIL: [Token; 7] = [
    Token::Key(Keyword::With),
    Token::Key(Keyword::Test),
    Token::Key(Keyword::After),
    Token::Key(Keyword::Until),
    Token::Key(Keyword::Zero),
    Token::Mark(Mark::Equal),
    Token::Key(Keyword::Space),
];

#[test]
fn a_relation_has_its_optional_word(rt: HostRuntime) {
    match relation(&GREATER) {
        Some((Relation::Greater, rest)) => assert!(&rt; rest.len() == 1),
        other => assert!(&rt; false, "{:?}", other),
    }
}

#[test]
fn a_sign_stands_before_parentheses(rt: HostRuntime) {
    let fits = matches!(expr(rt.alloc(), 50, &NEGATIVE), Ok((Expr::Sum(..), [])));
    assert!(&rt; fits);
}

/// Whether a condition has so many parts with OR between them.
fn has_alternatives(condition: &Cond, count: usize) -> bool {
    match condition {
        Cond::Or(any) => any.len() == count,
        _ => false,
    }
}

#[test]
fn and_binds_before_or(rt: HostRuntime) {
    match cond(rt.alloc(), 50, &OR_AND) {
        Ok(read) => assert!(&rt; has_alternatives(&read.0, 2) && read.1.is_empty()),
        Err(_) => assert!(&rt; false),
    }
}

/// Whether a loop has TEST AFTER and no VARYING.
fn is_tested_after(often: &Option<Loop>) -> bool {
    match often {
        Some(Loop::Until { test, varying, .. }) => *test == Some(Test::After) && varying.is_none(),
        _ => false,
    }
}

#[test]
fn a_loop_is_tested_after_each_turn(rt: HostRuntime) {
    match optional_repeated(rt.alloc(), 50, &UNTIL) {
        Ok(read) => assert!(&rt; is_tested_after(&read.0) && read.1.is_empty()),
        Err(_) => assert!(&rt; false),
    }
}
