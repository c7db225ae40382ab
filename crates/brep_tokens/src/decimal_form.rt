//! Tokens that spell a decimal.
ghost use Rattle.brep_tokens.specs.Forms.{after_digits, is_decimal, is_digits, is_exponent, is_fraction, is_unsigned};
ghost use Rattle.brep_tokens.specs.Forms.{starts_digit};
ghost use Rattle.brep_tokens.specs.Grammar.{IsDecimalByGrammar};
ghost use Rattle.std.specs.Prelude.{◌≡◌, ◌↔◌, IsTrue};

use crate::bytes::digit;

fn past_digits(text: &[u8]) -> &[u8]
    ensures { result.now ≡ after_digits text.now }
{
    let mut at = 0usize;
    'digits: while at < text.len() && digit(text[at]) {
        at += 1;
    }
    &text[at..]
}

fn has_digit(text: &[u8]) -> bool
    ensures { result ≡ starts_digit text.now }
{
    match text {
        [] => false,
        [b, ..] => digit(*b),
    }
}

fn digits(text: &[u8]) -> bool
    ensures { result ≡ is_digits text.now }
{
    has_digit(text) && past_digits(text).is_empty()
}

fn exponent(text: &[u8]) -> bool
    ensures { result ≡ is_exponent text.now }
{
    match text {
        [] => true,
        [_] => false,
        [e, s, rest @ ..] => {
            if *e != b'e' && *e != b'E' {
                return false;
            }
            if *s == b'+' || *s == b'-' {
                digits(rest)
            } else {
                digits(&text[1..])
            }
        }
    }
}

fn fraction(text: &[u8]) -> bool
    ensures { result ≡ is_fraction text.now }
{
    match text {
        [] => true,
        [b'.', rest @ ..] => exponent(past_digits(rest)),
        [_, ..] => exponent(text),
    }
}

fn unsigned(text: &[u8]) -> bool
    ensures { result ≡ is_unsigned text.now }
{
    match text {
        [] => false,
        [b'.', rest @ ..] => has_digit(rest) && exponent(past_digits(rest)),
        [b, rest @ ..] => digit(*b) && fraction(past_digits(rest)),
    }
}

/// Is the text perhaps `-`, then digits with at most one `.` among them, then perhaps an exponent?
#[tactic(auto, unfolding(crate::specs::Forms::is_decimal))]
pub fn decimal(text: &[u8]) -> bool
    ensures exact { result ≡ is_decimal text.now }
    ensures spelled { IsTrue result ↔ IsDecimalByGrammar text.now }
{
    match text {
        [] => false,
        [b'-', rest @ ..] => unsigned(rest),
        [_, ..] => unsigned(text),
    }
}
