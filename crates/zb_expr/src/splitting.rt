ghost use Rattle.std.specs.Prelude.{◌≡◌, ◌<◌, ◌+◌, ◌-◌, ◌*◌, ◌^◌, ◌↔◌, pos, false, [], IfOk, IfSome, IsSome};
ghost use Rattle.std.specs.Str.{IsUtf8};
ghost use Rattle.zb_expr.specs.Reading.{ComesAs, Parses, ParsesAs};
ghost use Rattle.zb_expr.specs.Spelling.{token_at, tokens_of, number_token, word_token, text_at_quote, quoted_after, sign_at, sign_by, sign_alone, sign_and_equal, long_sign, with_behind, decimal_after, run_of, behind_run};
ghost use Rattle.zb_expr.specs.declared.class.Class.TheVariants as classes;

use crate::ExprFault;
use crate::bytes::Bytes;
use crate::class::{Class, begins_word, is_decimal_digit};
use crate::token::{Leaf, Token};
use std::alloc::{AllocError, Global};
use zb_base::Text;
use zb_process::Operator;

/// The tokens of a text. It takes a step for each byte.
pub fn tokens_in(alloc: Global, text: &str) -> Result<Vec<Token>, ExprFault>
    ensures { ComesAs (λ tokens. tokens.items) (tokens_of text.now) result }
{
    let mut bytes = Bytes::new(text.as_bytes());
    let mut tokens = Vec::new(alloc);
    let most = text.len();
    for _ in 0..most {
        tokens.push(read_token(alloc, &mut bytes)?)?;
        if bytes.is_empty() {
            return Ok(tokens);
        }
        let _spaces = bytes.take_run(Class::Space);
    }
    Err(ExprFault::NotExpr)
}

// Reads the first token.
#[tactic(auto, unfolding(crate::specs::Spelling::token_at))]
fn read_token(alloc: Global, bytes: &mut Bytes<'_>) -> Result<Token, ExprFault>
    requires { IsUtf8 bytes.old }
    ensures { Parses (token_at bytes.old) result bytes.new }
{
    let Some(first) = bytes.first() else {
        return Err(ExprFault::NotExpr);
    };
    if is_decimal_digit(first) {
        return read_number(bytes);
    }
    if begins_word(first) {
        return Ok(read_word(alloc, bytes)?);
    }
    let _first = bytes.take_next();
    if first == b'"' {
        read_text(alloc, bytes)
    } else {
        read_sign(first, bytes)
    }
}

fn read_number(bytes: &mut Bytes<'_>) -> Result<Token, ExprFault>
    ensures { Parses (with_behind (number_token (run_of classes.Digit bytes.old)) (behind_run classes.Digit bytes.old)) result bytes.new }
{
    match number_of(bytes.take_run(Class::Digit)) {
        Some(number) => Ok(Token::Leaf(Leaf::Int(number))),
        None => Err(ExprFault::NotExpr),
    }
}

// The number that digits write, where it is below 2^63.
#[tactic(auto, using(crate::proofs::SplittingLemmas::numbers))]
fn number_of(digits: &[u8]) -> Option<i64>
    ensures some { IfSome result (λ number. number ≡ pos (decimal_after 0 digits.now)) }
    ensures few { IsSome result ↔ (decimal_after 0 digits.now < 2 ^ 63) }
{
    let mut number = 0;
    for digit in digits {
        let Some(next) = with_digit(number, *digit) else {
            return None;
        };
        number = next;
    }
    Some(number as i64)
}

// The number with a digit more, where it is below 2^63.
fn with_digit(number: u64, digit: u8) -> Option<u64>
    ensures some { IfSome result (λ next. next ≡ 10 * number + (digit - 48)) }
    ensures few { IsSome result ↔ (10 * number + (digit - 48) < 2 ^ 63) }
{
    let next = number
        .checked_mul(10)?
        .checked_add(digit.saturating_sub(b'0') as u64)?;
    if next < 1 << 63 { Some(next) } else { None }
}

fn read_word(alloc: Global, bytes: &mut Bytes<'_>) -> Result<Token, AllocError>
    ensures { IfOk result (λ token. (token ≡ word_token (run_of classes.Word bytes.old)) × (bytes.new ≡ behind_run classes.Word bytes.old)) }
{
    let run = bytes.take_run(Class::Word);
    // The bytes of a word are ASCII, and the check demands it here.
    let word = unsafe { str::from_utf8_unchecked(run) };
    token_of_word(alloc, word)
}

// The token of a word: an operator, a truth value, a not, else a name.
fn token_of_word(alloc: Global, word: &str) -> Result<Token, AllocError>
    ensures { IfOk result (λ token. token ≡ word_token word.now) }
{
    if word.cmp("and").is_eq() {
        return Ok(Token::Operator(Operator::And));
    }
    if word.cmp("or").is_eq() {
        return Ok(Token::Operator(Operator::Or));
    }
    if word.cmp("not").is_eq() {
        return Ok(Token::Not);
    }
    if word.cmp("true").is_eq() {
        return Ok(Token::Leaf(Leaf::Bool(true)));
    }
    if word.cmp("false").is_eq() {
        return Ok(Token::Leaf(Leaf::Bool(false)));
    }
    Ok(Token::Leaf(Leaf::Name(Text::of(alloc, word)?)))
}

// Reads a text behind its first quote.
fn read_text(alloc: Global, bytes: &mut Bytes<'_>) -> Result<Token, ExprFault>
    requires { IsUtf8 bytes.old }
    ensures { Parses (text_at_quote bytes.old) result bytes.new }
{
    let content = read_quoted(alloc, bytes)?;
    // What stands in quotes is UTF-8, since the bytes around it are, and the check demands it here.
    let text = unsafe { str::from_utf8_unchecked(content.as_slice()) };
    Ok(Token::Leaf(Leaf::Text(Text::of(alloc, text)?)))
}

// Reads the bytes up to the next quote, and the quote.
fn read_quoted(alloc: Global, bytes: &mut Bytes<'_>) -> Result<Vec<u8>, ExprFault>
    ensures { ParsesAs (λ content. content.items) (quoted_after false [] bytes.old) result bytes.new }
{
    let mut content = Vec::new(alloc);
    let mut escaped = false;
    while let Some(byte) = bytes.take_next() {
        if escaped {
            if byte != b'"' && byte != b'\\' {
                return Err(ExprFault::NotExpr);
            }
            content.push(byte)?;
            escaped = false;
        } else if byte == b'"' {
            return Ok(content);
        } else if byte == b'\\' {
            escaped = true;
        } else {
            content.push(byte)?;
        }
    }
    Err(ExprFault::NotExpr)
}

// Reads the token of a sign behind its first byte.
fn read_sign(first: u8, bytes: &mut Bytes<'_>) -> Result<Token, ExprFault>
    ensures { Parses (sign_at first bytes.old) result bytes.new }
{
    if let Some(operator) = operator_with(first, bytes.first()) {
        let _equal = bytes.take_next();
        return Ok(Token::Operator(operator));
    }
    match token_of_sign(first) {
        Some(token) => Ok(token),
        None => Err(ExprFault::NotExpr),
    }
}

// The operator that a sign is with the byte behind it.
fn operator_with(first: u8, next: Option<u8>) -> Option<Operator>
    ensures { result ≡ long_sign first next }
{
    match next {
        Some(b'=') => match first {
            b'!' => Some(Operator::NotEqual),
            b'<' => Some(Operator::AtMost),
            b'>' => Some(Operator::AtLeast),
            _ => None,
        },
        _ => None,
    }
}

// The token that a sign by itself is.
fn token_of_sign(sign: u8) -> Option<Token>
    ensures { result ≡ sign_alone sign }
{
    match sign {
        b'(' => Some(Token::Open),
        b')' => Some(Token::Close),
        b'[' => Some(Token::OpenList),
        b']' => Some(Token::CloseList),
        b',' => Some(Token::Comma),
        b'+' => Some(Token::Operator(Operator::Add)),
        b'-' => Some(Token::Operator(Operator::Subtract)),
        b'*' => Some(Token::Operator(Operator::Multiply)),
        b'=' => Some(Token::Operator(Operator::Equal)),
        b'<' => Some(Token::Operator(Operator::Less)),
        b'>' => Some(Token::Operator(Operator::Greater)),
        _ => None,
    }
}
