//! Tokens that spell a number, a power, a flag, a signed use or a continuity word.
ghost use Rattle.brep_tokens.specs.Forms.{IsNumber, IsPower, IsUseSign, continuity_of, continuity_place};
ghost use Rattle.brep_tokens.specs.Forms.{continuity_words, flag_of, flag_text, is_numeral, number_of, power_of};
ghost use Rattle.brep_tokens.specs.Forms.{use_sign_of};
ghost use Rattle.std.specs.Prelude.{◌≡◌, ℕ, ℤ, Bool, Contains, IfNone, IfSome, Some, slice_get, true};
ghost use Rattle.std.specs.Str.Parse.{digits_value};

use crate::bytes::{all_digits, sign};

/// Does the text have the form of a number?
fn numeral(text: &[u8]) -> bool
    ensures { result ≡ is_numeral text.now }
{
    match text {
        [] => false,
        [b'0', rest @ ..] => rest.is_empty(),
        [_, rest @ ..] => rest.len() <= 17 && all_digits(text),
    }
}

/// What the digits are worth.
fn worth(text: &[u8]) -> u64
    requires { is_numeral text.now ≡ true }
    ensures { result ≡ digits_value 10 text.now }
{
    let mut value = 0u64;
    for b in text {
        value = value * 10 + (*b - b'0') as u64;
    }
    value
}

/// The number that the text spells: `0`, or a digit 1 to 9 and further digits, at most 18 in all.
#[tactic(auto, using(crate::proofs::NumberForms::IsNumber_of, crate::proofs::NumberForms::is_numeral_of))]
pub fn number(text: &[u8]) -> Option<u64>
    ensures exact { result ≡ number_of text.now }
    ensures some { IfSome result (λ n. IsNumber text.now n) }
    ensures none { IfNone result ((n : ℕ) → IsNumber text.now n → ⊥) }
{
    if numeral(text) {
        Some(worth(text))
    } else {
        None
    }
}

/// The power that the text spells: a number, or `-` and a number other than 0.
pub fn power(text: &[u8]) -> Option<i64>
    ensures exact { result ≡ power_of text.now }
    ensures some { IfSome result (λ p. IsPower text.now p) }
    ensures none { IfNone result ((p : ℤ) → IsPower text.now p → ⊥) }
{
    match text {
        [] => None,
        [b'-', rest @ ..] => match number(rest) {
            None => None,
            Some(n) => if n == 0 { None } else { Some(-(n as i64)) },
        },
        [_, ..] => match number(text) {
            None => None,
            Some(n) => Some(n as i64),
        },
    }
}

/// The flag that the text spells, `0` or `1`.
pub fn flag(text: &[u8]) -> Option<bool>
    ensures exact { result ≡ flag_of text.now }
    ensures some { IfSome result (λ b. text.now ≡ flag_text b) }
    ensures none { IfNone result ((b : Bool) → text.now ≡ flag_text b → ⊥) }
{
    match text {
        [] => None,
        [b, rest @ ..] => {
            if !rest.is_empty() {
                return None;
            }
            match *b {
                b'0' => Some(false),
                b'1' => Some(true),
                _ => None,
            }
        }
    }
}

/// The sign `+`, `-`, `i` or `e` and the number joined to it.
pub fn use_sign(text: &[u8]) -> Option<(u8, u64)>
    ensures exact { result ≡ use_sign_of text.now }
    ensures some { IfSome result (λ u. IsUseSign text.now u.0 u.1) }
    ensures none { IfNone result ((s n : ℕ) → IsUseSign text.now s n → ⊥) }
{
    match text {
        [] => None,
        [b, rest @ ..] => {
            if !sign(*b) {
                return None;
            }
            match number(rest) {
                None => None,
                Some(n) => Some((*b, n)),
            }
        }
    }
}

/// The place of a word of two letters in the list of continuity words.
pub(crate) fn place(family: u8, order: u8) -> Option<u8>
    ensures { result ≡ continuity_place family order }
{
    if family == b'C' {
        if b'0' <= order && order <= b'3' {
            Some(order - b'0')
        } else if order == b'N' {
            Some(4)
        } else {
            None
        }
    } else if family == b'G' {
        if order == b'1' {
            Some(5)
        } else if order == b'2' {
            Some(6)
        } else {
            None
        }
    } else {
        None
    }
}

/// The place of the text among `C0`, `C1`, `C2`, `C3`, `CN`, `G1` and `G2`, counted from 0.
pub fn continuity(text: &[u8]) -> Option<u8>
    ensures exact { result ≡ continuity_of text.now }
    ensures some { IfSome result (λ k. slice_get continuity_words k ≡ Some text.now) }
    ensures none { IfNone result ((k : ℕ) → slice_get continuity_words k ≡ Some text.now → ⊥) }
{
    match text {
        [a, b, rest @ ..] => if rest.is_empty() { place(*a, *b) } else { None },
        _ => None,
    }
}
