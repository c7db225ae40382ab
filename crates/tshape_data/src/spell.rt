//! The tokens of a head, one after another.
ghost use Rattle.std.specs.Prelude.{◌≡◌, ◌++◌, IfNone, IfSome, []};
ghost use Rattle.std.specs.List.{AllByRecursion};
ghost use Rattle.tshape_data.specs.Parts.{edge_flags};
ghost use Rattle.tshape_data.specs.Short.{IsShortEdgeRep, IsShortPoint};
ghost use Rattle.tshape_data.specs.SpellLeft.{CanGiveChunk, CanGiveHead, CanGiveStage, IsBegun, chunk_left, edges_left};
ghost use Rattle.tshape_data.specs.SpellLeft.{face_number_texts, points_left, range_left, stage_left, tokens_left};
ghost use Rattle.tshape_data.specs.SpellLeft.{words_of};

use crate::chunks::{ChunkSpell, words_alone, words_around};
use crate::head::{EdgeData, FaceData, Flags, Head, Payload};
use crate::head_words::Word;
use crate::ranges::RangeSpell;
use crate::rep_spell::{edge_rep, number, point_first, point_rest};
use crate::reps::{EdgeRep, PointRep};
use crate::word_lists::Words;
use brep_tokens::{Decimals, TokenText};

/// What stands behind the piece whose tokens are given: representations of a vertex, the rest of one and then others,
/// representations of an edge, the flags, or nothing.
#[derive(Clone, Copy)]
pub enum Stage<'a> {
    Points {
        points: &'a [PointRep],
    },
    PointRest {
        point: &'a PointRep,
        points: &'a [PointRep],
    },
    Edges {
        reps: &'a [EdgeRep],
    },
    Flags,
    Done,
}

/// Gives the texts of a head's tokens.
#[derive(Clone, Copy)]
pub struct HeadSpell<'a> {
    version: u8,
    flags: Flags,
    chunk: ChunkSpell<'a>,
    stage: Stage<'a>,
}

/// All of the decimals.
fn all<'a>(texts: &'a Decimals) -> RangeSpell<'a>
    ensures { range_left result ≡ texts.now }
{
    RangeSpell::new(texts, 0, texts.len())
}

/// The iterator at representations of a vertex.
fn at_points<'a>(points: &'a [PointRep], version: u8, flags: Flags) -> HeadSpell<'a>
    requires { AllByRecursion IsShortPoint points.now }
    ensures { IsBegun (points_left flags points.now) result }
{
    match points {
        [] => HeadSpell {
            version,
            flags,
            chunk: words_alone(Words::three(Word::End, Word::End, Word::Flags(flags))),
            stage: Stage::Done,
        },
        [point, points @ ..] => HeadSpell {
            version,
            flags,
            chunk: point_first(point),
            stage: Stage::PointRest { point, points },
        },
    }
}

/// The iterator at representations of an edge.
fn at_edges<'a>(reps: &'a [EdgeRep], version: u8, flags: Flags) -> HeadSpell<'a>
    requires { AllByRecursion IsShortEdgeRep reps.now }
    ensures { IsBegun (edges_left version flags reps.now) result }
{
    match reps {
        [] => HeadSpell {
            version,
            flags,
            chunk: words_alone(Words::two(Word::End, Word::Flags(flags))),
            stage: Stage::Done,
        },
        [r, reps @ ..] => HeadSpell {
            version,
            flags,
            chunk: edge_rep(r, version),
            stage: Stage::Edges { reps },
        },
    }
}

/// The iterator at what stands behind a piece.
fn after<'a>(stage: Stage<'a>, version: u8, flags: Flags) -> Option<HeadSpell<'a>>
    requires { CanGiveStage stage }
    ensures some { IfSome result (λ s. IsBegun (stage_left version flags stage.entry) s) }
    ensures none { IfNone result (stage_left version flags stage.entry ≡ []) }
{
    match stage {
        Stage::Points { points } => Some(at_points(points, version, flags)),
        Stage::PointRest { point, points } => Some(HeadSpell {
            version,
            flags,
            chunk: point_rest(point),
            stage: Stage::Points { points },
        }),
        Stage::Edges { reps } => Some(at_edges(reps, version, flags)),
        Stage::Flags => Some(HeadSpell {
            version,
            flags,
            chunk: words_alone(Words::one(Word::Flags(flags))),
            stage: Stage::Done,
        }),
        Stage::Done => None,
    }
}

/// The words of a face behind its tolerance.
fn face_words(d: &FaceData) -> Words
    ensures { words_of result ≡ face_number_texts d.now }
{
    match d.mesh {
        None => Words::two(number(d.surface), number(d.location)),
        Some(mesh) => Words::four(
            number(d.surface),
            number(d.location),
            Word::Meshed,
            number(mesh),
        ),
    }
}

/// The words of an edge behind its tolerance.
fn edge_flag_words(d: &EdgeData) -> Words
    ensures { words_of result ≡ edge_flags d.now }
{
    Words::three(
        Word::Flag(d.same_parameter),
        Word::Flag(d.same_range),
        Word::Flag(d.degenerated),
    )
}

/// The iterator at a piece of a head.
fn piece<'a>(head: &'a Head, version: u8, chunk: ChunkSpell<'a>, stage: Stage<'a>) -> HeadSpell<'a>
    ensures left { tokens_left result ≡ chunk_left chunk.entry ++ stage_left version head.now.flags stage.entry }
    ensures can { CanGiveChunk chunk.entry → CanGiveStage stage.entry → CanGiveHead result }
{
    HeadSpell {
        version,
        flags: head.flags,
        chunk,
        stage,
    }
}

impl Head {
    ghost use Rattle.std.specs.Prelude.{◌≡◌};
    ghost use Rattle.tshape_data.specs.Short.{IsShortPayload};
    ghost use Rattle.tshape_data.specs.SpellLeft.{CanGiveHead, tokens_left};
    ghost use Rattle.tshape_data.specs.Spelling.{spell_head};

    /// The texts of its tokens in a file of a version. It takes no memory.
    pub fn spell(&self, version: u8) -> HeadSpell<'_>
        requires { IsShortPayload self.now.payload }
        ensures left { tokens_left result ≡ spell_head version self.now }
        ensures can { CanGiveHead result }
    {
        let name = Word::Name(self.kind);
        match &self.payload {
            Payload::Vertex(d) => {
                let chunk = words_around(Words::one(name), all(&d.texts), Words::none());
                let points = d.points.as_slice();
                piece(self, version, chunk, Stage::Points { points })
            }
            Payload::Edge(d) => {
                let chunk = words_around(Words::one(name), all(&d.tolerance), edge_flag_words(d));
                let reps = d.reps.as_slice();
                piece(self, version, chunk, Stage::Edges { reps })
            }
            Payload::Face(d) => {
                let natural = Word::Flag(d.natural);
                let chunk = words_around(
                    Words::two(name, natural),
                    all(&d.tolerance),
                    face_words(d),
                );
                piece(self, version, chunk, Stage::Flags)
            }
            Payload::Nothing => piece(self, version, words_alone(Words::one(name)), Stage::Flags),
        }
    }
}

impl<'a> Iterator for HeadSpell<'a> {
    ghost use Rattle.std.specs.Iterator.{YieldsFirst, item_count};
    ghost use Rattle.tshape_data.specs.SpellLeft.{CanGiveHead, tokens_left};

    type Item = TokenText;

    ghost next_gives = { YieldsFirst tokens_left };

    ghost remaining = { item_count tokens_left };

    ghost can_next = { CanGiveHead };

    fn next(&mut self) -> Option<TokenText> {
        if let Some(t) = self.chunk.next() {
            return Some(t);
        }
        match after(self.stage, self.version, self.flags) {
            None => None,
            Some(s) => {
                *self = s;
                self.chunk.next()
            }
        }
    }
}
