//! The words that are written with nodes.
ghost use Rattle.brep_writer.specs.Located.{AddsNode, AddsNodes, AreLocated, IsOver};
ghost use Rattle.brep_writer.specs.Sources.{head_in, words_in, HasOrigin, IsLoadedSource};
ghost use Rattle.std.specs.Prelude.{◌<◌, All, IfOk, OnOk, length};
ghost use Rattle.written_heads.specs.Named.{AddsLocationsOf};
ghost use Rattle.written_locations.specs.Added.{AddsWords, IsNumbering};
ghost use Rattle.written_order.specs.Orders.{IsOrderOf};

use crate::source::{NodeHead, Source};
use shape_pool::{NodeId, UseOf};
use std::alloc::{AllocError, Global};
use tshape_data::laws::renumbering_keeps_parts;
use written_heads::add_head_locations;
use written_locations::WrittenLocations;
use written_locations::laws::added_parts_join;
use written_order::Order;

/// The locations in a node's data are added.
fn add_data(
    locations: &mut WrittenLocations<'_>,
    source: &Source<'_>,
    id: NodeId,
) -> Result<(), AllocError>
    requires loaded { IsLoadedSource source.now }
    requires id { id.0 < length source.now.pool.now }
    requires origin { HasOrigin source.now id.0 }
    requires numbering { IsNumbering locations.old }
    requires over { IsOver source.now locations.old }
    ensures { OnOk result (AddsLocationsOf (head_in source.now id.0).payload locations.old locations.new) }
{
    added_parts_join();
    renumbering_keeps_parts();
    match source.head(id) {
        NodeHead::Made => Ok(()),
        NodeHead::AsLoaded(head) => add_head_locations(locations, head),
        NodeHead::Rebuilt(head) => add_head_locations(locations, head),
    }
}

/// The words of a node's uses are added.
fn add_uses(
    locations: &mut WrittenLocations<'_>,
    source: &Source<'_>,
    id: NodeId,
) -> Result<(), AllocError>
    requires loaded { IsLoadedSource source.now }
    requires id { id.0 < length source.now.pool.now }
    requires numbering { IsNumbering locations.old }
    requires over { IsOver source.now locations.old }
    ensures { OnOk result (AddsWords (words_in source.now id.0) locations.old locations.new) }
{
    added_parts_join();
    'uses: for at in 0..source.use_count(id) {
        locations.add_word(source.use_at(id, at).place)?;
    }
    Ok(())
}

/// The words of a node are added: those in its data, and then those of its uses.
fn add_node(
    locations: &mut WrittenLocations<'_>,
    source: &Source<'_>,
    id: NodeId,
) -> Result<(), AllocError>
    requires loaded { IsLoadedSource source.now }
    requires id { id.0 < length source.now.pool.now }
    requires origin { HasOrigin source.now id.0 }
    requires numbering { IsNumbering locations.old }
    requires over { IsOver source.now locations.old }
    ensures { OnOk result (AddsNode source.now id.0 locations.old locations.new) }
{
    added_parts_join();
    source.pool.laws();
    add_data(locations, source, id)?;
    add_uses(locations, source, id)
}

/// The words of nodes are added, one after another.
fn add_nodes(
    locations: &mut WrittenLocations<'_>,
    source: &Source<'_>,
    order: &Order,
) -> Result<(), AllocError>
    requires loaded { IsLoadedSource source.now }
    requires held { All (λ i. i < length source.now.pool.now) order.now.numbers }
    requires origins { All (HasOrigin source.now) order.now.numbers }
    requires numbering { IsNumbering locations.old }
    requires over { IsOver source.now locations.old }
    ensures { OnOk result (AddsNodes source.now order.now.numbers locations.old locations.new) }
{
    added_parts_join();
    for id in order.ids() {
        add_node(locations, source, *id)?;
    }
    Ok(())
}

/// The words that are written with nodes in their order, and with the root use.
pub(crate) fn locations_in<'a>(
    alloc: Global,
    source: &Source<'a>,
    order: &Order,
    root: UseOf,
) -> Result<WrittenLocations<'a>, AllocError>
    requires loaded { IsLoadedSource source.now }
    requires place { root.place.0 < length source.now.words.now }
    requires order { IsOrderOf source.now.pool.now root.id.0 order.now.numbers }
    requires origins { All (HasOrigin source.now) order.now.numbers }
    ensures { IfOk result (AreLocated source.now order.now.numbers root) }
{
    added_parts_join();
    source.pool.laws();
    let mut locations = WrittenLocations::new(alloc, &source.file.locations, source.words)?;
    add_nodes(&mut locations, source, order)?;
    locations.add_word(root.place)?;
    Ok(locations)
}
