//! Classes of bytes.
ghost use Rattle.brep_tokens.specs.Bytes.{is_digit, is_sign, is_trailing, is_white};
ghost use Rattle.std.specs.List.{list_all};
ghost use Rattle.std.specs.Prelude.{◌≡◌};

pub(crate) fn white(b: u8) -> bool
    ensures { result ≡ is_white b }
{
    (9 <= b && b <= 13) || b == 32
}

pub(crate) fn trailing(b: u8) -> bool
    ensures { result ≡ is_trailing b }
{
    b == 9 || b == 13 || b == 32
}

pub(crate) fn digit(b: u8) -> bool
    ensures { result ≡ is_digit b }
{
    48 <= b && b <= 57
}

pub(crate) fn sign(b: u8) -> bool
    ensures { result ≡ is_sign b }
{
    b == b'+' || b == b'-' || b == b'i' || b == b'e'
}

pub(crate) fn all_digits(text: &[u8]) -> bool
    ensures { result ≡ list_all is_digit text.now }
{
    for b in text {
        if !digit(*b) {
            return false;
        }
    }
    true
}

pub(crate) fn all_trailing(text: &[u8]) -> bool
    ensures { result ≡ list_all is_trailing text.now }
{
    for b in text {
        if !trailing(*b) {
            return false;
        }
    }
    true
}
