//! Rows of single tokens and of whole texts: what a scanner gives, and which texts have which form.
ghost use Rattle.std.specs.Prelude.{◌≡◌, IfOk, true};

use crate::saying::{add, add_bytes, add_fault, add_number, counted};
use brep_tokens::{
    Decimals, Next, Numbers, ReadCode, ReadFault, ReadStop, Scanner, TokenText, continuity,
    decimal, flag, number, power, use_sign,
};
use row_parts::Row;
use std::alloc::{AllocError, Global};

/// The answer to a row of this module.
pub fn answer(alloc: Global, row: &Row<'_>, text: &str) -> Result<Option<String>, AllocError> {
    let bytes = text.as_bytes();
    let said = match row.word {
        "scan" => scanned(alloc, text)?,
        "number" => number_said(alloc, number(bytes))?,
        "power" => power_said(alloc, power(bytes))?,
        "flag" => flag_said(alloc, flag(bytes))?,
        "sign" => sign_said(alloc, use_sign(bytes))?,
        "continuity" => number_said(alloc, continuity(bytes).map(u64::from))?,
        "decimal" => flag_said(alloc, Some(decimal(bytes)))?,
        "token-text" => copied(alloc, text)?,
        "decimal-list" => decimal_list(alloc, text)?,
        "number-list" => number_list(alloc, text)?,
        "stop" => stop_said(alloc, text)?,
        "size" => size_said(alloc)?,
        _ => return Ok(None),
    };
    Ok(Some(said))
}

/// A scanner that was fed the whole text.
fn fed(alloc: Global, text: &[u8]) -> Result<Scanner, AllocError>
    ensures { IfOk result (λ s. s.ended ≡ true) }
{
    let mut scanner = Scanner::new(alloc);
    scanner.feed(text)?;
    scanner.end();
    Ok(scanner)
}

/// Appends what the scanner gives next.
fn add_next(
    said: &mut String,
    alloc: Global,
    next: &Result<Next, ReadFault>,
) -> Result<(), AllocError> {
    match next {
        Ok(Next::Version(version)) => {
            add(said, "version")?;
            add_number(said, u64::from(*version))
        }
        Ok(Next::Token(token)) => {
            add_number(said, token.offset)?;
            add_bytes(said, token.bytes())
        }
        Ok(Next::NeedMore(size)) => {
            add(said, "more")?;
            add_number(said, *size)
        }
        Ok(Next::End(size)) => {
            add(said, "end")?;
            add_number(said, *size)
        }
        Err(fault) => add_fault(said, alloc, fault),
    }
}

/// Does more follow?
fn goes_on(next: &Result<Next, ReadFault>) -> bool {
    match next {
        Ok(Next::End(_)) | Err(_) => false,
        _ => true,
    }
}

/// All answers up to the end or a fault, and that one once more.
fn scanned(alloc: Global, text: &str) -> Result<String, AllocError> {
    let mut scanner = fed(alloc, text.as_bytes())?;
    let mut all = String::new(alloc);
    'answers: for _ in 0..1_000u64 {
        let next = scanner.next();
        add_next(&mut all, alloc, &next)?;
        all.push_str(";")?;
        if !goes_on(&next) {
            break;
        }
    }
    add_next(&mut all, alloc, &scanner.next())?;
    Ok(all)
}

/// What is said of nothing.
fn none(alloc: Global) -> Result<String, AllocError> {
    String::from_str(alloc, "none")
}

/// What is said of a number.
fn number_said(alloc: Global, got: Option<u64>) -> Result<String, AllocError> {
    match got {
        Some(n) => format!(in alloc; "{n}"),
        None => none(alloc),
    }
}

/// What is said of a power.
fn power_said(alloc: Global, got: Option<i64>) -> Result<String, AllocError> {
    match got {
        Some(n) => format!(in alloc; "{n}"),
        None => none(alloc),
    }
}

/// What is said of a flag.
fn flag_said(alloc: Global, got: Option<bool>) -> Result<String, AllocError> {
    match got {
        Some(true) => String::from_str(alloc, "true"),
        Some(false) => String::from_str(alloc, "false"),
        None => none(alloc),
    }
}

/// What is said of a sign and a number.
fn sign_said(alloc: Global, got: Option<(u8, u64)>) -> Result<String, AllocError> {
    match got {
        Some((sign, n)) => {
            let sign = char::from(sign);
            format!(in alloc; "{sign} {n}")
        }
        None => none(alloc),
    }
}

/// The text of a token, copied.
fn copied(alloc: Global, text: &str) -> Result<String, AllocError> {
    if text.len() > 128 {
        return String::from_str(alloc, "too long");
    }
    let token = TokenText::of(text.as_bytes());
    let copy = token;
    String::from_str(alloc, str::from_utf8(copy.bytes()).unwrap_or("?"))
}

/// The texts between single spaces as a list.
fn decimals_of(alloc: Global, text: &str) -> Result<Decimals, AllocError> {
    let mut texts = Decimals::new(alloc);
    if text.is_empty() {
        return Ok(texts);
    }
    for word in text.split(' ') {
        texts.push(word.as_bytes())?;
    }
    Ok(texts)
}

/// How many texts a list has, and each at its place, up to the first place that has none.
fn decimal_list(alloc: Global, text: &str) -> Result<String, AllocError> {
    let texts = decimals_of(alloc, text)?;
    if texts.is_empty() {
        return String::from_str(alloc, "empty");
    }
    let mut said = counted(alloc, texts.len() as u64)?;
    for at in 0..=texts.len() {
        add_bytes(&mut said, texts.get(at).unwrap_or(b"none"))?;
        said.push_str(";")?;
    }
    Ok(said)
}

/// The numbers of a text as a list.
fn numbers_of(alloc: Global, text: &str) -> Result<Numbers, AllocError> {
    let mut numbers = Numbers::new(alloc);
    for word in text.split_whitespace() {
        numbers.push(word.parse::<u64>().unwrap_or(0))?;
    }
    Ok(numbers)
}

/// How many numbers a list has, and each at its place, up to the first place that has none.
fn number_list(alloc: Global, text: &str) -> Result<String, AllocError> {
    let numbers = numbers_of(alloc, text)?;
    if numbers.is_empty() {
        return String::from_str(alloc, "empty");
    }
    let mut said = counted(alloc, numbers.len() as u64)?;
    for at in 0..=numbers.len() {
        match numbers.get(at) {
            Some(n) => add_number(&mut said, *n)?,
            None => add(&mut said, "none")?,
        }
        said.push_str(";")?;
    }
    Ok(said)
}

/// The stop that comes of a fault at an offset, or of want of memory.
fn stop_of(text: &str) -> ReadStop {
    match text.parse::<u64>() {
        Ok(offset) => ReadStop::from(ReadFault {
            code: ReadCode::Tail,
            offset,
            value: 0,
            limit: 0,
        }),
        Err(_) => ReadStop::from(AllocError),
    }
}

/// The same in words.
fn stop_said(alloc: Global, text: &str) -> Result<String, AllocError> {
    let mut said = String::new(alloc);
    match stop_of(text) {
        ReadStop::Fault(fault) => add_fault(&mut said, alloc, &fault)?,
        ReadStop::NoMemory => add(&mut said, "no memory")?,
    }
    Ok(said)
}

/// Has a list of decimals at most 64 bytes beside its texts?
fn size_said(alloc: Global) -> Result<String, AllocError> {
    String::from_str(
        alloc,
        if size_of::<Decimals>() <= 64 {
            "at most 64"
        } else {
            "more than 64"
        },
    )
}
