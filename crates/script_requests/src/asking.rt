//! What `replace` and `remove` ask.
ghost use Rattle.std.specs.Prelude.{◌≡◌, ◌≤◌, ◌↔◌, All, IfErr, IfOk, IsTrue, false, length, map, reverse};
ghost use Rattle.location_words.specs.Tables.{IsTable};
ghost use Rattle.file_loading.specs.Places.{KeepsWords};
ghost use Rattle.shape_pool.specs.Calls.{IsLoaded};
ghost use Rattle.requests.specs.declared.request.Request.{Request};
ghost use Rattle.requests.specs.Numbered.{ActFits, AreHeldIn, IsHeldIn};
ghost use Rattle.script_requests.specs.Named.{AreVersionsHeld};
ghost use Rattle.script_requests.specs.Numbered.{a_request, AreRemoving, AreReplacing, HasMisfit, IsLocationOf};
ghost use Rattle.script_requests.specs.Numbered.{IsReplaceFault, OrWants};

use crate::fault::{AskFault, ScriptCode, refused};
use crate::naming::{nodes_named, one_named};
use crate::places::{place_of, word_of};
use crate::version::Version;
use brep_file::File;
use location_words::{WordId, Words};
use orientation::Turn;
use requests::{Act, AddFault, Request, RequestTable, Requests};
use script_text::{Sel, Tgt};
use shape_pool::{NodeId, Pool, UseOf};
use std::alloc::{AllocError, Global};

/// The same request for each of some nodes.
fn requests_for(
    alloc: Global,
    sources: &[NodeId],
    place: Option<WordId>,
    turn: Option<Turn>,
    act: Act,
) -> Result<Requests, AllocError>
    ensures { IfOk result (λ asked. asked ≡ map (a_request place turn act) sources.now) }
{
    let mut asked = Requests::new(alloc);
    for source in sources {
        asked.push(Request {
            source: *source,
            place,
            turn,
            act,
        })?;
    }
    Ok(asked)
}

/// Gives a request to a table, or tells that its target doesn't fit its source.
fn fits(table: &mut RequestTable, pool: &Pool, request: Request) -> Result<bool, AllocError>
    requires { IsHeldIn pool.now request }
    ensures { IfOk result (λ fit. IsTrue fit ↔ ActFits pool.now request.source.0 request.act) }
{
    match table.add(pool, request) {
        Ok(()) => Ok(true),
        Err(AddFault::KindMismatch) => Ok(false),
        Err(AddFault::NoMemory) => Err(AllocError),
    }
}

/// Whether the target of each request fits its source.
fn all_fit(alloc: Global, pool: &Pool, asked: &[Request]) -> Result<bool, AllocError>
    requires { AreHeldIn pool.now asked.now }
    ensures right { IfOk result (λ fit. IsTrue fit →
        All (λ (r : Request). ActFits pool.now r.source.0 r.act) asked.now) }
    ensures wrong { IfOk result (λ fit. (fit ≡ false) → HasMisfit pool.now asked.now) }
{
    let mut table = RequestTable::new(alloc);
    for request in asked {
        if !fits(&mut table, pool, *request)? {
            return Ok(false);
        }
    }
    Ok(true)
}

/// The requests that `remove` makes: one for each node for which the name stands.
pub fn removing(
    alloc: Global,
    file: &File,
    pool: &Pool,
    words: &mut Words,
    versions: &[Version],
    sel: Sel,
) -> Result<Requests, AllocError>
    requires name { IsLoaded pool.now sel.name }
    requires place { IsLocationOf file.now sel.place }
    requires versions { AreVersionsHeld pool.now versions.now }
    requires table { IsTable words.old }
    ensures asked { IfOk result (AreRemoving file.now words.new pool.now (reverse versions.now) sel) }
    ensures kept { KeepsWords words.old words.new }
    ensures table { IsTable words.new }
{
    let sources = nodes_named(alloc, pool, versions, sel.name)?;
    let place = place_of(file, words, sel.place)?;
    let asked = requests_for(alloc, sources.as_slice(), place, sel.turn, Act::Remove)?;
    Ok(asked)
}

/// The requests that `replace` makes: one for each node for which the name of the source stands.
pub fn replacing(
    alloc: Global,
    file: &File,
    pool: &Pool,
    words: &mut Words,
    versions: &[Version],
    sel: Sel,
    tgt: Tgt,
    line: u64,
) -> Result<Requests, AskFault>
    requires name { IsLoaded pool.now sel.name }
    requires target { IsLoaded pool.now tgt.name }
    requires place { IsLocationOf file.now sel.place }
    requires location { tgt.location ≤ length file.now.locations }
    requires versions { AreVersionsHeld pool.now versions.now }
    requires table { IsTable words.old }
    ensures asked { IfOk result (AreReplacing file.now words.new pool.now (reverse versions.now) sel tgt) }
    ensures refused { IfErr result (OrWants (IsReplaceFault pool.now (reverse versions.now) line sel tgt)) }
    ensures kept { KeepsWords words.old words.new }
    ensures table { IsTable words.new }
{
    let target = one_named(alloc, pool, versions, tgt.name, line)?;
    let sources = nodes_named(alloc, pool, versions, sel.name)?;
    let place = place_of(file, words, sel.place)?;
    let word = word_of(file, words, tgt.location)?;
    let by = UseOf {
        turn: tgt.turn,
        place: word,
        id: target,
    };
    let asked = requests_for(alloc, sources.as_slice(), place, sel.turn, Act::Replace(by))?;
    if !all_fit(alloc, pool, asked.as_slice())? {
        let (source, target) = (u64::from(sel.name), u64::from(tgt.name));
        return Err(refused(line, ScriptCode::KindMismatch, source, target));
    }
    Ok(asked)
}
