//! What is written from, and the heads of nodes.
ghost use Rattle.brep_file.specs.PlainRecords.{tree_of_record};
ghost use Rattle.brep_writer.specs.Sources.{head_by, head_in, tree_in, HasOrigin, IsLoadedSource, IsSoundNodeHead};
ghost use Rattle.expansion_laws.specs.Equality.{tree_eq};
ghost use Rattle.expansion_laws.specs.Expansion.{IsNumberOf};
ghost use Rattle.shape_pool.specs.Rows.{origin_at, uses_at};
ghost use Rattle.std.specs.Prelude.{◌≡◌, ◌<◌, Some, length, slice_get};

use brep_file::File;
use expansion_laws::laws::equal_trees_tell;
use location_words::Words;
use shape_pool::{NodeId, Pool, UseOf};
use tshape_data::Head;

/// A file, with the pool and the table of words that it was loaded into.
#[derive(Drop)]
pub(crate) struct Source<'a> {
    pub(crate) file: &'a File,
    pub(crate) pool: &'a Pool,
    pub(crate) words: &'a Words,
}

/// The head under which a node is written.
#[derive(Drop)]
pub(crate) enum NodeHead<'a> {
    /// That of a compound that a step made.
    Made,
    /// That of a record, whose tree the node stands for.
    AsLoaded(&'a Head),
    /// That of a record, as rebuilt.
    Rebuilt(&'a Head),
}

impl<'a> Source<'a> {
    /// The head under which a node is written.
    pub(crate) fn head(&self, id: NodeId) -> NodeHead<'a>
        requires loaded { IsLoadedSource self.now }
        requires id { id.0 < length self.now.pool.now }
        requires origin { HasOrigin self.now id.0 }
        ensures head { head_by result ≡ head_in self.now id.0 }
        ensures sound { IsSoundNodeHead self.now.file.now result }
    {
        self.pool.laws();
        let origin = self.pool.origin(id);
        if origin == 0 {
            return NodeHead::Made;
        }
        let file = self.file;
        let head = &file.entry(origin).head;
        if self.is_as_loaded(id, origin) {
            NodeHead::AsLoaded(head)
        } else {
            NodeHead::Rebuilt(head)
        }
    }

    /// Whether a node stands for the tree of the record with a number, which is its origin.
    fn is_as_loaded(&self, id: NodeId, origin: u32) -> bool
        requires loaded { IsLoadedSource self.now }
        requires id { id.0 < length self.now.pool.now }
        requires origin { origin ≡ origin_at self.now.pool.now id.0 }
        requires number { IsNumberOf (length self.now.file.now.records) origin }
        ensures { result ≡ tree_eq (tree_in self.now id.0) (tree_of_record self.now.file.now origin) }
    {
        equal_trees_tell();
        self.pool.laws();
        match self.pool.named(origin) {
            Some(first) => first.0 == id.0,
            None => unreachable!(),
        }
    }

    /// How many uses a node has.
    pub(crate) fn use_count(&self, id: NodeId) -> usize
        requires { id.0 < length self.now.pool.now }
        ensures { result ≡ length (uses_at self.now.pool.now id.0) }
    {
        self.pool.node(id).uses.len()
    }

    /// A use of a node by number, uses being counted from 0.
    pub(crate) fn use_at(&self, id: NodeId, at: usize) -> UseOf
        requires id { id.0 < length self.now.pool.now }
        requires at { at < length (uses_at self.now.pool.now id.0) }
        ensures { slice_get (uses_at self.now.pool.now id.0) at ≡ Some result }
    {
        let one = &self.pool.node(id).uses[at];
        UseOf {
            turn: one.turn,
            place: one.place,
            id: one.node.id,
        }
    }
}
