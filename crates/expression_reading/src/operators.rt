ghost use Rattle.std.specs.Prelude.{◌≡◌, ◌<◌, suc};
ghost use Rattle.java_tree.specs.Expressions.{tier_of};
ghost use Rattle.expression_reading.specs.Operators.{sign_of, link_by, link_at, link_of};

use java_lex::{Terminal, Token};
use java_tree::Sign;
use reading_core::terminal_at;

/// How an operand goes on.
#[derive(Clone, Copy, Debug, PartialEq, Eq)]
pub enum Link {
    /// Not at all.
    Ends,
    /// By an operator of a chain, which associates to the left.
    Left(Sign),
    /// By `==>`, which associates to the right.
    Right,
}

/// The operator that a token is.
fn sign(terminal: Terminal) -> Option<Sign>
    ensures { result ≡ sign_of terminal }
{
    match terminal {
        Terminal::Times => Some(Sign::Mul),
        Terminal::Plus => Some(Sign::Add),
        Terminal::Minus => Some(Sign::Sub),
        Terminal::Less => Some(Sign::Lt),
        Terminal::AtMost => Some(Sign::Le),
        Terminal::Greater => Some(Sign::Gt),
        Terminal::AtLeast => Some(Sign::Ge),
        Terminal::Equal => Some(Sign::Eq),
        Terminal::NotEqual => Some(Sign::Ne),
        Terminal::And => Some(Sign::And),
        Terminal::Or => Some(Sign::Or),
        Terminal::Implies => Some(Sign::Implies),
        Terminal::Iff => Some(Sign::Iff),
        _ => None,
    }
}

/// The number of the operands of an operator, from `*` on.
fn operand_of(sign: Sign) -> u8
    ensures { suc (suc result) ≡ tier_of sign }
{
    match sign {
        Sign::Mul => 0,
        Sign::Add | Sign::Sub => 1,
        Sign::Lt | Sign::Le | Sign::Gt | Sign::Ge => 2,
        Sign::Eq | Sign::Ne => 3,
        Sign::And => 4,
        Sign::Or => 5,
        Sign::Implies => 6,
        Sign::Iff => 7,
    }
}

/// How an operand goes on by this operator.
fn link_by_sign(sign: Sign) -> Link
    ensures { result ≡ link_by sign }
{
    match sign {
        Sign::Implies => Link::Right,
        _ => Link::Left(sign),
    }
}

/// How an operand of the number goes on at a token, in a clause (`jml`) or in code. Takes no memory.
pub fn goes_on(token: &Token, jml: bool, number: u8) -> Link
    ensures { result ≡ link_of jml number token.now }
{
    let Some(sign) = sign(terminal_at(token, jml)) else {
        return Link::Ends;
    };
    if operand_of(sign) == number {
        link_by_sign(sign)
    } else {
        Link::Ends
    }
}
