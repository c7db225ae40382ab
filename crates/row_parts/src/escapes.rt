//! Characters that a row can't show: `\n`, `\t`, `\v`, `\f`, `\r`, and `\s` for a space at an end.

use std::alloc::{AllocError, Global};

/// What stands for a character behind a backslash.
fn meant(c: char) -> char {
    match c {
        'n' => '\n',
        't' => '\t',
        'v' => '\x0b',
        'f' => '\x0c',
        'r' => '\r',
        's' => ' ',
        _ => c,
    }
}

/// A row's text with the characters that it stands for.
pub fn unescaped(alloc: Global, text: &str) -> Result<String, AllocError> {
    let mut all = String::new(alloc);
    let mut behind = false;
    for c in text.chars() {
        if behind {
            all.push(meant(c))?;
            behind = false;
        } else if c == '\\' {
            behind = true;
        } else {
            all.push(c)?;
        }
    }
    Ok(all)
}

/// Appends a character as a row shows it.
fn add_shown(all: &mut String, c: char) -> Result<(), AllocError> {
    match c {
        '\n' => all.push_str("\\n"),
        '\r' => all.push_str("\\r"),
        _ => all.push(c),
    }
}

/// A text as a row shows it, with `\n` and `\r` for the ends of lines.
pub fn shown(alloc: Global, text: &str) -> Result<String, AllocError> {
    let mut all = String::new(alloc);
    for c in text.chars() {
        add_shown(&mut all, c)?;
    }
    Ok(all)
}
