//! Words, appended to a text.
ghost use Rattle.std.specs.Prelude.{◌≡◌, ◌++◌, OnOk};
ghost use Rattle.std.specs.Fmt.{decimal};
ghost use Rattle.brep_gen.specs.Generated.{use_words};
ghost use Rattle.brep_gen.specs.Spacing.{spaced};

use itoa::Buffer;
use std::alloc::AllocError;

/// A number in decimal digits.
pub(crate) fn push_number(text: &mut Vec<u8>, n: u64) -> Result<(), AllocError>
    ensures { OnOk result (text.new.items ≡ text.old.items ++ decimal n) }
{
    let mut buffer = Buffer::new();
    text.extend_from_slice(buffer.format(n).as_bytes())
}

/// A use of the record with a number, and a space after each of its words.
pub(crate) fn push_use(
    text: &mut Vec<u8>,
    sign: u8,
    number: u64,
    location: u64,
) -> Result<(), AllocError>
    ensures { OnOk result (text.new.items ≡ text.old.items ++ spaced (use_words sign number location)) }
{
    text.push(sign)?;
    push_number(text, number)?;
    text.push(b' ')?;
    push_number(text, location)?;
    text.push(b' ')?;
    Ok(())
}
