//! The requests of a script's lines.
ghost use Rattle.requests.specs.Numbered.{ActIsHeldIn, IsHeldIn};
ghost use Rattle.reshape.specs.Readings.{ActIsPlaced, IsPlaced};
ghost use Rattle.std.specs.Prelude.{◌≡◌, ◌<◌, IfOk, IfSome, length};
ghost use Rattle.step_rows.specs.Ready.{AreReady};

use brep_file::File;
use location_words::{WordId, Words};
use orientation::Rule;
use requests::{Act, AddFault, Request, RequestTable};
use script_text::{Command, Sel, Tgt, parse};
use shape_pool::{NodeId, Pool, UseOf};
use std::alloc::{AllocError, Global};

/// The node of a record.
fn node_of(pool: &Pool, name: u32) -> Option<NodeId>
    ensures { IfSome result (λ id. id.0 < length pool.now) }
{
    let id = pool.named(name)?;
    if id.0 < pool.mark() { Some(id) } else { None }
}

/// The number of the word of a location.
fn word_of(file: &File, words: &Words, place: u32) -> Option<WordId>
    ensures { IfSome result (λ id. id.0 < length words.now) }
{
    if place > file.locations.len() {
        return None;
    }
    let id = words.number(file.locations.word(place))?;
    if id.0 < words.len() { Some(id) } else { None }
}

/// What a replace brings.
fn replacing(file: &File, pool: &Pool, words: &Words, tgt: Tgt) -> Option<Act>
    ensures held { IfSome result (ActIsHeldIn pool.now) }
    ensures placed { IfSome result (ActIsPlaced (length words.now)) }
{
    let id = node_of(pool, tgt.name)?;
    let place = word_of(file, words, tgt.location)?;
    let turn = tgt.turn;
    Some(Act::Replace(UseOf { turn, place, id }))
}

/// A request for what is selected.
fn request_for(file: &File, pool: &Pool, words: &Words, sel: Sel, act: Act) -> Option<Request>
    requires held { ActIsHeldIn pool.now act }
    requires placed { ActIsPlaced (length words.now) act }
    ensures held { IfSome result (IsHeldIn pool.now) }
    ensures placed { IfSome result (IsPlaced (length words.now)) }
{
    let source = node_of(pool, sel.name)?;
    let turn = sel.turn;
    match sel.place {
        None => Some(Request {
            source,
            place: None,
            turn,
            act,
        }),
        Some(number) => {
            let place = Some(word_of(file, words, number)?);
            Some(Request {
                source,
                place,
                turn,
                act,
            })
        }
    }
}

/// The request of a command, where it is a replace or a remove.
fn request_of(file: &File, pool: &Pool, words: &Words, command: &Command) -> Option<Request>
    ensures held { IfSome result (IsHeldIn pool.now) }
    ensures placed { IfSome result (IsPlaced (length words.now)) }
{
    match command {
        Command::Replace { sel, tgt } => {
            let act = replacing(file, pool, words, *tgt)?;
            request_for(file, pool, words, *sel, act)
        }
        Command::Remove { sel } => request_for(file, pool, words, *sel, Act::Remove),
        _ => None,
    }
}

/// Adds a request. Whether it was taken: its target fits.
fn ask(pool: &Pool, words: &Words, table: &mut RequestTable, r: Request) -> Result<bool, AllocError>
    requires held { IsHeldIn pool.now r }
    requires placed { IsPlaced (length words.now) r }
    requires ready { AreReady pool.now (length words.now) table.old.requests }
    ensures { AreReady pool.now (length words.now) table.new.requests }
{
    match table.add(pool, r) {
        Ok(()) => Ok(true),
        Err(AddFault::KindMismatch) => Ok(false),
        Err(AddFault::NoMemory) => Err(AllocError),
    }
}

/// Sets the rule of the step, where a command does.
fn sets_rule(table: &mut RequestTable, command: &Command) -> bool
    ensures { table.new.requests ≡ table.old.requests }
{
    let rule = table.rule();
    match command {
        Command::Until(kind) => {
            let prune = rule.prune;
            table.set_rule(Rule { stop: *kind, prune });
            true
        }
        Command::Prune => {
            let stop = rule.stop;
            table.set_rule(Rule { stop, prune: true });
            true
        }
        _ => false,
    }
}

/// Asks what a line asks for. Whether it was understood and taken.
fn take(
    alloc: Global,
    file: &File,
    pool: &Pool,
    words: &Words,
    table: &mut RequestTable,
    line: &str,
) -> Result<bool, AllocError>
    requires { AreReady pool.now (length words.now) table.old.requests }
    ensures { AreReady pool.now (length words.now) table.new.requests }
{
    let shapes = u32::try_from(file.records.len()).unwrap_or(u32::MAX);
    match parse(alloc, line.as_bytes(), shapes, file.locations.len()) {
        Ok(Some(command)) => {
            if sets_rule(table, &command) {
                return Ok(true);
            }
            match request_of(file, pool, words, &command) {
                Some(r) => ask(pool, words, table, r),
                None => Ok(false),
            }
        }
        Ok(None) => Ok(true),
        Err(_) => Ok(false),
    }
}

/// The requests of a script, up to the first line that isn't understood or taken, and the number of that line.
#[derive(Drop)]
pub(crate) struct Asked {
    pub table: RequestTable,
    pub refused: Option<u64>,
}

/// The requests of a script.
pub(crate) fn asked_by(
    alloc: Global,
    file: &File,
    pool: &Pool,
    words: &Words,
    script: &str,
) -> Result<Asked, AllocError>
    ensures { IfOk result (λ asked. AreReady pool.now (length words.now) asked.table.requests) }
{
    let mut table = RequestTable::new(alloc);
    let mut number = 0u64;
    for line in script.lines() {
        number = number.saturating_add(1);
        if !take(alloc, file, pool, words, &mut table, line)? {
            return Ok(Asked {
                table,
                refused: Some(number),
            });
        }
    }
    Ok(Asked {
        table,
        refused: None,
    })
}
