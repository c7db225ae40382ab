//! The orders of the input, by their words.

/// What gives a text, or adds to the one that is given last.
#[derive(Clone, Copy)]
pub enum Give {
    /// Begins a text that all later rows may use.
    Keep,
    /// Begins a file of the desk.
    File,
    Use,
    Text,
    Repeat,
    Count,
    Bytes,
}

/// What runs the program once.
#[derive(Clone, Copy)]
pub enum Ran {
    /// Words over a new desk.
    Run,
    /// Words over the desk that the last run left.
    Then,
    /// A copy of a text.
    Copy,
    /// A copy of a kept text and another behind it.
    After,
    /// A rewrite by a script.
    Script,
}

/// What reads or runs many times, or reads without a desk.
#[derive(Clone, Copy)]
pub enum Sweep {
    FailEach,
    Prefixes,
    Cuts,
    Read,
    NoMemory,
}

/// An order of the input.
#[derive(Clone, Copy)]
pub enum Order {
    Row,
    /// Ends the text that is given.
    End,
    Piece,
    Fail,
    Give(Give),
    Ran(Ran),
    Sweep(Sweep),
}

fn give_of(word: &str) -> Option<Give> {
    match word {
        "keep" => Some(Give::Keep),
        "file" => Some(Give::File),
        "use" => Some(Give::Use),
        "text" => Some(Give::Text),
        "repeat" => Some(Give::Repeat),
        "count" => Some(Give::Count),
        "bytes" => Some(Give::Bytes),
        _ => None,
    }
}

fn ran_of(word: &str) -> Option<Ran> {
    match word {
        "run" => Some(Ran::Run),
        "then" => Some(Ran::Then),
        "copy" => Some(Ran::Copy),
        "after" => Some(Ran::After),
        "script" => Some(Ran::Script),
        _ => None,
    }
}

fn sweep_of(word: &str) -> Option<Sweep> {
    match word {
        "fail-each" => Some(Sweep::FailEach),
        "prefixes" => Some(Sweep::Prefixes),
        "cuts" => Some(Sweep::Cuts),
        "read" => Some(Sweep::Read),
        "no-memory" => Some(Sweep::NoMemory),
        _ => None,
    }
}

fn plain_of(word: &str) -> Option<Order> {
    match word {
        "row" => Some(Order::Row),
        "end" => Some(Order::End),
        "piece" => Some(Order::Piece),
        "fail" => Some(Order::Fail),
        _ => None,
    }
}

fn word_of(word: &str) -> Option<Order> {
    if let Some(give) = give_of(word) {
        return Some(Order::Give(give));
    }
    if let Some(ran) = ran_of(word) {
        return Some(Order::Ran(ran));
    }
    if let Some(sweep) = sweep_of(word) {
        return Some(Order::Sweep(sweep));
    }
    plain_of(word)
}

/// The order of a line, which is `:` and its word, and what follows behind one space. None for any other line.
pub fn order_of(line: &str) -> Option<(Order, &str)> {
    let asked = line.strip_prefix(':')?;
    let (word, rest) = asked.split_once(' ').unwrap_or((asked, ""));
    let order = word_of(word)?;
    Some((order, rest))
}
