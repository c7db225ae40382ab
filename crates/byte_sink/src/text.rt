//! A text in memory.
ghost use Rattle.byte_sink.specs.Handing.{IsText};
ghost use Rattle.std.specs.Prelude.{◌≡◌, [], IfOk};

use crate::takes::TakesBytes;
use std::alloc::{AllocError, Global};

/// A text in memory. It stops where memory is short.
#[derive(Drop)]
pub struct TextBytes {
    bytes: Vec<u8>,
    short: bool,
}

impl TextBytes {
    /// The empty text, with room for so many bytes.
    pub fn with_room(alloc: Global, room: usize) -> Result<TextBytes, AllocError>
        ensures { IfOk result (IsText []) }
    {
        Ok(TextBytes {
            bytes: Vec::with_capacity(alloc, room)?,
            short: false,
        })
    }

    /// The text.
    pub fn finish(self) -> Result<Vec<u8>, AllocError>
        ensures { IfOk result (λ v. IsText v.items self) }
    {
        let TextBytes { bytes, short } = self;
        if short { Err(AllocError) } else { Ok(bytes) }
    }
}

impl TakesBytes for TextBytes {
    ghost use Rattle.byte_sink.specs.Handing.{GivesText};
    ghost use Rattle.byte_sink.specs.HandingLaws.{text_joins};

    ghost gives = { GivesText };

    ghost joins = { text_joins };

    fn push(&mut self, bytes: &[u8]) {
        match self.bytes.extend_from_slice(bytes) {
            Ok(()) => {}
            Err(_) => self.short = true,
        }
    }

    fn is_stopped(&self) -> bool {
        self.short
    }
}
