//! The records of a file as nodes of a pool.
ghost use Rattle.brep_file.specs.Sound.{IsSound, IsWithinLimits};
ghost use Rattle.brep_file.specs.PlainRecords.{expansion_of};
ghost use Rattle.file_loading.specs.Loading.{use_in, kind_of_record, AreLoadedUses, HasOriginsOf, IsLoadedFrom};
ghost use Rattle.file_loading.specs.Loading.{IsLoadedTo, IsLoadedUse};
ghost use Rattle.shape_pool.specs.Rows.{HaveKinds};
ghost use Rattle.file_loading.specs.Places.{HoldWordsOf, KeepsWords};
ghost use Rattle.location_words.specs.Tables.{IsTable};
ghost use Rattle.std.specs.Prelude.{◌≡◌, ◌<◌, ◌≤◌, ◌+◌, ◌∷◌, [], All, IfOk, OnOk, length};

use crate::places::place_words;
use brep_file::{File, FileUse};
use expansion_laws::laws::records_are_trees;
use location_words::{WordId, Words};
use shape_pool::{NodeId, Pool, PoolFault, UseOf};
use std::alloc::{AllocError, Global};

/// A use of one of so many records, by the number of its node and that of its word.
fn loaded_use(used: FileUse, records: u32, ids: &[WordId]) -> UseOf
    requires number { used.number ≤ records }
    requires place { used.location < length ids.now }
    ensures { IsLoadedUse records ids.now used result }
{
    UseOf {
        turn: used.turn,
        place: ids[used.location as usize],
        id: NodeId(records - used.number),
    }
}

/// The uses of one of so many records, in their order.
fn loaded_uses(
    alloc: Global,
    uses: &[FileUse],
    records: u32,
    ids: &[WordId],
) -> Result<Vec<UseOf>, AllocError>
    requires numbers { All (λ u. u.number ≤ records) uses.now }
    requires places { All (λ u. u.location < length ids.now) uses.now }
    ensures { IfOk result (λ vs. AreLoadedUses records ids.now uses.now vs.items) }
{
    let mut loaded = Vec::new(alloc);
    'uses: for used in uses {
        loaded.push(loaded_use(*used, records, ids))?;
    }
    Ok(loaded)
}

/// Loads the record behind so many that are loaded.
fn load_record(
    alloc: Global,
    file: &File,
    at: u32,
    ids: &[WordId],
    words: &Words,
    pool: &mut Pool,
) -> Result<(), AllocError>
    requires sound { IsSound file.now }
    requires within { IsWithinLimits file.now }
    requires at { at < length file.now.records }
    requires ids { HoldWordsOf file.now.locations words.now ids.now }
    requires loaded { IsLoadedTo file.now words.now pool.old at }
    ensures { OnOk result (IsLoadedTo file.now words.now pool.new (at + 1)) }
{
    pool.laws();
    records_are_trees();
    let records = file.records.len() as u32;
    let record = file.entry(records - at);
    let uses = loaded_uses(alloc, record.uses.as_slice(), records, ids)?;
    match pool.load(record.head.kind, records - at, uses.as_slice()) {
        Ok(_) => Ok(()),
        Err(PoolFault::NoMemory) => Err(AllocError),
        Err(PoolFault::TooMany(_)) => unreachable!(),
        Err(PoolFault::TooDeep(_)) => unreachable!(),
    }
}

/// Loads the records of a file into a pool that holds nothing, and enters the words of its places into a table, where
/// each earlier number keeps its word. The answer is the root use.
pub fn load_file(
    alloc: Global,
    file: &File,
    pool: &mut Pool,
    words: &mut Words,
) -> Result<UseOf, AllocError>
    requires sound { IsSound file.now }
    requires within { IsWithinLimits file.now }
    requires pool { pool.old ≡ [] }
    ensures loaded { OnOk result (IsLoadedFrom file.now words.new pool.new) }
    ensures rows { OnOk result (length pool.new ≡ length file.now.records) }
    ensures kinds { OnOk result (HaveKinds pool.new (kind_of_record file.now)) }
    ensures kept { OnOk result (KeepsWords words.old words.new) }
    ensures root { IfOk result (λ u. use_in words.new pool.new u ≡ expansion_of file.now) }
    ensures held { IfOk result (λ u. (u.id.0 < length pool.new) × (u.place.0 < length words.new)) }
    ensures origins { IfOk result (λ u. HasOriginsOf file.now pool.new u.id.0) }
{
    let ids = place_words(alloc, &file.locations, words)?;
    let records = file.records.len() as u32;
    'records: for at in 0..records {
        load_record(alloc, file, at, ids.as_slice(), words, pool)?;
    }
    pool.laws();
    Ok(loaded_use(file.root, records, ids.as_slice()))
}
