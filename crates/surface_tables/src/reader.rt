//! The reader of a surface.
ghost use Rattle.std.specs.Prelude.{◌≡◌, ◌<◌, Err, IfOk, None, []};
ghost use Rattle.entry_readers.specs.Reading.{more};
ghost use Rattle.entry_readers.specs.Takes.{HasRead, ReadsAs};
ghost use Rattle.surface_tables.specs.Left.{Closes, IsDone, IsWaiting, TakesSurface, closing, surface_left};
ghost use Rattle.surface_tables.specs.Surfaces.{surface_at};
ghost use Rattle.surface_tables.specs.declared.parts.Part.TheVariants as parts;

use crate::part::PartReader;
use crate::parts::{Frame, Frames, Part};
use crate::surface::{Surface, framed};
use brep_tokens::{Progress, ReadStop, Token};
use entry_readers::EntryReader;
use std::alloc::{AllocError, Global};

/// Takes the tokens of an entry of the section `Surfaces`.
#[derive(Drop)]
pub struct SurfaceReader {
    frames: Frames,
    part: PartReader,
    whole: Option<Surface>,
    alloc: Global,
}

impl SurfaceReader {
    /// No token was taken yet.
    pub fn new(alloc: Global) -> SurfaceReader
        ensures left { ReadsAs (surface_left result) surface_at }
        ensures waits { IsWaiting result }
        ensures open { surface_left result [] ≡ Err more }
    {
        SurfaceReader {
            frames: Frames::new(alloc),
            part: PartReader::new(alloc, 0),
            whole: None,
            alloc,
        }
    }

    /// A part is whole: the surface is whole with it, or goes on inside the frame.
    fn close(&mut self, part: Part) -> Result<Progress, AllocError>
        requires nested { self.old.part.nest < 64 }
        requires none { self.old.whole ≡ None }
        ensures { IfOk result (λ p. Closes (closing self.old part) self.new p) }
    {
        match part {
            Part::Leaf(surface) => self.end(surface),
            Part::Open(frame) => self.enter(frame),
        }
    }

    /// The surface is whole: it stands in the frames.
    fn end(&mut self, leaf: Surface) -> Result<Progress, AllocError>
        requires { self.old.whole ≡ None }
        ensures { IfOk result (λ p. Closes (closing self.old (parts.Leaf leaf)) self.new p) }
    {
        self.whole = Some(framed(self.alloc, &mut self.frames, leaf)?);
        Ok(Progress::Whole)
    }

    /// The frame is whole: a code is due in it.
    fn enter(&mut self, frame: Frame) -> Result<Progress, AllocError>
        requires nested { self.old.part.nest < 64 }
        requires none { self.old.whole ≡ None }
        ensures { IfOk result (λ p. Closes (closing self.old (parts.Open frame)) self.new p) }
    {
        self.frames.push(frame)?;
        self.part = PartReader::new(self.alloc, self.part.nest + 1);
        Ok(Progress::More)
    }

    /// Takes a token: it is the first one that isn't accepted, or more are due, or the surface is whole with it.
    pub fn take(&mut self, t: &Token) -> Result<Progress, ReadStop>
        requires { IsWaiting self.old }
        ensures { TakesSurface self.old t.now self.new result }
    {
        match self.part.take(t)? {
            None => Ok(Progress::More),
            Some(part) => Ok(self.close(part)?),
        }
    }

    /// The surface.
    pub fn done(self) -> Surface
        requires { IsDone self }
        ensures { HasRead (surface_left self) result }
    {
        let SurfaceReader { whole, .. } = self;
        match whole {
            Some(surface) => surface,
            None => unreachable!(),
        }
    }
}

impl EntryReader for SurfaceReader {
    type Entry = Surface;

    ghost use Rattle.surface_tables.specs.Left.{IsDone, IsWaiting, surface_left};
    ghost use Rattle.surface_tables.specs.Surfaces.{surface_at};

    ghost read = { surface_at };

    ghost left = { surface_left };

    ghost waits = { IsWaiting };

    ghost whole = { IsDone };

    fn begin(alloc: Global) -> SurfaceReader {
        SurfaceReader::new(alloc)
    }

    fn take_token(&mut self, t: &Token) -> Result<Progress, ReadStop> {
        self.take(t)
    }

    fn finish(self) -> Surface {
        self.done()
    }
}
