ghost use Rattle.std.specs.Prelude.{◌≡◌, length, drop, ◌==◌};
ghost use Rattle.std.specs.Option.{option_copied};
ghost use Rattle.zb_expr.specs.Reading.{first_token, operator_in, ends_list};

use crate::token::Token;
use std::marker::Model;
use zb_process::Operator;

/// Tokens that are read from their front. Contracts see what is left of them.
#[derive(Drop)]
pub struct Tokens<'a> {
    left: &'a [Token],
}

impl<'a> Model for Tokens<'a> {
    ghost use Rattle.std.specs.Prelude.{List};
    ghost use Rattle.zb_expr.specs.declared.token.Token.{Token};

    ghost Value = { List Token };

    ghost view = { λ t. t.left.now };
}

impl<'a> Tokens<'a> {
    /// These tokens.
    pub fn new(tokens: &'a [Token]) -> Tokens<'a>
        ensures { result ≡ tokens.now }
    {
        Tokens { left: tokens }
    }

    /// How many tokens are left.
    pub fn len(&self) -> usize
        ensures { result ≡ length self.now }
    {
        self.left.len()
    }

    /// Whether no token is left.
    pub fn is_empty(&self) -> bool
        ensures { result ≡ (length self.now == 0) }
    {
        self.left.is_empty()
    }

    /// Takes the next token.
    pub fn take_next(&mut self) -> Option<&'a Token>
        ensures token { option_copied result ≡ first_token self.old }
        ensures rest { self.new ≡ drop 1 self.old }
    {
        match self.left {
            [] => None,
            [first, rest @ ..] => {
                self.left = rest;
                Some(first)
            }
        }
    }

    /// The next token, where it is an operator.
    pub fn operator(&self) -> Option<Operator>
        ensures { result ≡ operator_in (first_token self.now) }
    {
        match self.left {
            [Token::Operator(operator), ..] => Some(*operator),
            _ => None,
        }
    }

    /// Whether the next token ends a list.
    pub fn is_at_list_end(&self) -> bool
        ensures { result ≡ ends_list (first_token self.now) }
    {
        match self.left {
            [Token::CloseList, ..] => true,
            _ => false,
        }
    }
}
