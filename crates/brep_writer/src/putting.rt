//! The text of a plan, handed to what takes bytes.
ghost use Rattle.brep_file.specs.Spelling.{spell_use};
ghost use Rattle.brep_tokens.specs.Written.{lines_text};
ghost use Rattle.brep_writer.specs.Plans.{plan_text, record_in, use_in_file, uses_in_file, IsPlan};
ghost use Rattle.brep_writer.specs.Sources.{head_in};
ghost use Rattle.std.specs.List.{flat_map, join_with_byte};
ghost use Rattle.std.specs.Prelude.{◌≡◌, ◌<◌, ◌∷◌, ◌++◌, Contains, [], false, length, true};
ghost use Rattle.tshape_data.specs.declared.head.Flags.{Flags};
ghost use Rattle.written_heads.specs.Words.{written_head};
ghost use Rattle.written_layout.specs.Layout.{record_lines, spaced_use};
ghost use Rattle.written_locations.specs.Added.{IsWordAdded};

use crate::plan::WritePlan;
use crate::source::NodeHead;
use byte_sink::TakesBytes;
use expansion_laws::laws::equal_trees_tell;
use shape_pool::{NodeId, UseOf};
use tshape_data::Flags;
use tshape_data::laws::renumbering_keeps_parts;
use written_heads::laws::locations_stay;
use written_heads::{push_head, push_head_as};
use written_layout::laws::texts_have_parts;
use written_layout::{push_beginning, push_heading, push_use};
use written_order::laws::orders_number;

/// The lines of the head of a compound that a step made.
const MADE_HEAD: &[u8] = b"Co\n\n1101000\n";

/// The flags of a rebuilt record.
fn rebuilt(flags: &Flags) -> Flags
    ensures { result ≡ record flags.now { modified = true; checked = false } }
{
    Flags {
        free: flags.free,
        modified: true,
        checked: false,
        orientable: flags.orientable,
        closed: flags.closed,
        infinite: flags.infinite,
        convex: flags.convex,
    }
}

impl<'a> WritePlan<'a> {
    /// The lines of a node's head.
    fn put_head<B: TakesBytes>(&self, text: &mut B, id: NodeId)
        requires plan { IsPlan self.now }
        requires written { Contains self.now.order.numbers id.0 }
        ensures { B.gives text.old
            (written_head self.now.locations self.now.version (head_in self.now.source id.0)) text.new }
    {
        locations_stay();
        renumbering_keeps_parts();
        match self.source.head(id) {
            NodeHead::Made => text.push(MADE_HEAD),
            NodeHead::AsLoaded(head) => push_head(text, head, self.version, &self.locations),
            NodeHead::Rebuilt(head) => {
                let flags = rebuilt(&head.flags);
                push_head_as(text, head, &flags, self.version, &self.locations)
            }
        }
    }

    /// A use by the numbers that are written, and a byte after it.
    fn put_use<B: TakesBytes>(&self, text: &mut B, used: UseOf, end: u8)
        requires plan { IsPlan self.now }
        requires id { used.id.0 < length self.now.source.pool.now }
        requires place { used.place.0 < length self.now.source.words.now }
        requires added { IsWordAdded self.now.locations used.place.0 }
        ensures { B.gives text.old (join_with_byte 32 (spell_use (use_in_file self.now used)) ++ end ∷ []) text.new }
    {
        equal_trees_tell();
        let number = self.number(used.id).unwrap_or(0);
        let location = self.locations.number_of(used.place);
        push_use(text, used.turn, number as usize, location, end);
    }

    /// The uses of a node, each with a space after it.
    fn put_uses<B: TakesBytes>(&self, text: &mut B, id: NodeId)
        requires plan { IsPlan self.now }
        requires written { Contains self.now.order.numbers id.0 }
        ensures { B.gives text.old (flat_map spaced_use (uses_in_file self.now id.0)) text.new }
    {
        self.source.pool.laws();
        'uses: for at in 0..self.source.use_count(id) {
            self.put_use(text, self.source.use_at(id, at), b' ');
        }
    }

    /// The lines of a node's record.
    fn put_record<B: TakesBytes>(&self, text: &mut B, id: NodeId)
        requires plan { IsPlan self.now }
        requires written { Contains self.now.order.numbers id.0 }
        ensures { B.gives text.old (lines_text (record_lines self.now.version (record_in self.now id.0))) text.new }
    {
        texts_have_parts();
        self.put_head(text, id);
        self.put_uses(text, id);
        text.push(b"*\n");
    }

    /// The lines of all records, in their order.
    fn put_records<B: TakesBytes>(&self, text: &mut B)
        requires { IsPlan self.now }
        ensures { B.gives text.old
            (flat_map (λ i. lines_text (record_lines self.now.version (record_in self.now i))) self.now.order.numbers)
            text.new }
    {
        for id in self.order.ids() {
            self.put_record(text, *id);
        }
    }

    /// The whole text.
    pub(crate) fn put_text<B: TakesBytes>(&self, text: &mut B)
        requires { IsPlan self.now }
        ensures { B.gives text.old (plan_text self.now) text.new }
    {
        texts_have_parts();
        self.source.pool.laws();
        push_beginning(text, self.source.file, self.version, &self.locations);
        push_heading(text, b"TShapes", self.order.ids().len());
        self.put_records(text);
        self.put_use(text, self.root, b'\n');
    }
}
