//! How a root of a pool is written.
ghost use Rattle.brep_desk.specs.Causes.{Rose};
ghost use Rattle.brep_desk.specs.Strays.{NoStrayOnWriting};
ghost use Rattle.brep_desk.specs.Transfers.{AppendedAll};
ghost use Rattle.brep_desk.specs.WritingCalls.{RoseWritingCalls};
ghost use Rattle.brep_file.specs.Sound.{IsSound};
ghost use Rattle.brep_writer.specs.Plans.{plan_root, plan_text, plan_trees, IsPlan, IsWrittenAs};
ghost use Rattle.brep_writer.specs.Sources.{tree_in};
ghost use Rattle.brep_writer.specs.WrittenFile.{text_of};
ghost use Rattle.byte_sink.specs.Laws.{AppendedPart};
ghost use Rattle.byte_sink.specs.Sending.{counted_on};
ghost use Rattle.expansion_laws.specs.Expansion.{IsNumberOf};
ghost use Rattle.expansion_laws.specs.Written.{origins_of};
ghost use Rattle.file_loading.specs.Loading.{use_in, HasOriginsOf, IsLoadedFrom};
ghost use Rattle.std.specs.Prelude.{◌≡◌, ◌<◌, ◌≤◌, Contains, IfErr, IfNone, IfOk, IfSome, OnErr, OnOk, length};
ghost use Rattle.written_heads.specs.Versions.{IsOutputOf};
ghost use Rattle.written_order.specs.Orders.{HasAsManyAtLeast};

use crate::locations::locations_in;
use crate::source::Source;
use brep_desk::{Chan, Desk, WriteStop};
use brep_file::File;
use byte_sink::Sink;
use byte_sink::laws::texts_go_out;
use expansion_laws::laws::roots_are_written;
use location_words::Words;
use shape_pool::{NodeId, Pool, UseOf};
use std::alloc::{AllocError, Global};
use written_locations::WrittenLocations;
use written_order::laws::orders_number;
use written_order::{Order, order_of};

/// How a root of a pool is written: the order of its nodes, and the numbers of the words. It holds no text.
#[derive(Drop)]
pub struct WritePlan<'a> {
    pub(crate) source: Source<'a>,
    pub(crate) root: UseOf,
    pub(crate) version: u8,
    pub(crate) order: Order,
    pub(crate) locations: WrittenLocations<'a>,
}

impl<'a> WritePlan<'a> {
    /// Plans how a root is written in a version, which is 1 or the file's. The pool was loaded from the file, with its
    /// words in the table, and each origin at or below the root is 0 or a record of the file.
    pub fn new(
        alloc: Global,
        file: &'a File,
        pool: &'a Pool,
        words: &'a Words,
        root: UseOf,
        version: u8,
    ) -> Result<WritePlan<'a>, AllocError>
        requires sound { IsSound file.now }
        requires loaded { IsLoadedFrom file.now words.now pool.now }
        requires root { root.id.0 < length pool.now }
        requires place { root.place.0 < length words.now }
        requires origins { HasOriginsOf file.now pool.now root.id.0 }
        requires version { IsOutputOf file.now.version version }
        ensures plan { IfOk result IsPlan }
        ensures pool { IfOk result (λ p. p.source.pool.now ≡ pool.now) }
        ensures words { IfOk result (λ p. p.source.words.now ≡ words.now) }
        ensures root { IfOk result (λ p. plan_root p ≡ use_in words.now pool.now root) }
        ensures text { IfOk result (λ p. plan_text p ≡ text_of file.now (use_in words.now pool.now root) version) }
    {
        roots_are_written();
        pool.laws();
        let source = Source { file, pool, words };
        let order = order_of(alloc, pool, root.id)?;
        let locations = locations_in(alloc, &source, &order, root)?;
        Ok(WritePlan {
            source,
            root,
            version,
            order,
            locations,
        })
    }

    /// Writes the text over a channel, through an array of 4,096 bytes, and answers its length, or the last number of
    /// 64 bits where it is longer. It takes no memory.
    pub fn emit<D: Desk>(&self, desk: &mut D, c: Chan) -> Result<u64, WriteStop>
        requires plan { IsPlan self.now }
        ensures later { D.faults desk.old ≤ D.faults desk.new }
        ensures cause { OnErr result (Rose (D.faults desk.old) (D.faults desk.new)) }
        ensures no_fault { OnOk result (D.faults desk.new ≡ D.faults desk.old) }
        ensures whole { OnOk result (AppendedAll D.tells (D.shows desk.old) (D.shows desk.new) c.number
            (plan_text self.now)) }
        ensures length { IfOk result (λ n. n ≡ counted_on 0 (length (plan_text self.now))) }
        ensures part { IfErr result (λ e. AppendedPart D.tells (D.shows desk.old) (D.shows desk.new) c.number
            (plan_text self.now) e.taken) }
        ensures strays { NoStrayOnWriting D.tells (D.shows desk.old) (D.shows desk.new) c.number }
        ensures writing_calls { RoseWritingCalls D.tells (D.shows desk.old) (D.shows desk.new) }
    {
        texts_go_out();
        let mut sink = Sink::new(desk, c);
        self.put_text(&mut sink);
        sink.finish()
    }

    /// The number that a node is written with. None exactly where it isn't written.
    pub fn number(&self, id: NodeId) -> Option<u32>
        requires plan { IsPlan self.now }
        requires id { id.0 < length self.now.source.pool.now }
        ensures some { IfSome result (IsWrittenAs self.now id.0) }
        ensures none { IfNone result (¬ Contains (plan_trees self.now) (tree_in self.now.source id.0)) }
    {
        self.source.pool.laws();
        orders_number();
        self.order.number(id)
    }

    /// How many records are written. No other file that stands for the root has fewer.
    pub fn records(&self) -> u32
        requires plan { IsPlan self.now }
        ensures count { result ≡ length (plan_trees self.now) }
        ensures fewest { HasAsManyAtLeast (plan_root self.now) result }
    {
        self.source.pool.laws();
        orders_number();
        self.order.len()
    }

    /// The origin of a number that is written: the number of an input record, or 0.
    pub fn origin(&self, number: u32) -> u32
        requires plan { IsPlan self.now }
        requires number { IsNumberOf (length (plan_trees self.now)) number }
        ensures { result ≡ origins_of (plan_trees self.now) number }
    {
        self.source.pool.laws();
        let ids = self.order.ids();
        self.source.pool.origin(ids[ids.len() - number as usize])
    }
}
