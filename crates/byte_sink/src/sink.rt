//! A channel of a desk that takes bytes.
ghost use Rattle.byte_sink.specs.Handing.{standing, Begins, Ends, GivesSink};
ghost use Rattle.std.specs.Prelude.{◌≡◌, None};

use crate::takes::TakesBytes;
use crate::waiting::WaitingBytes;
use brep_desk::{Chan, Desk, WriteStop};

/// A text on its way over a channel. It stops where a call of the desk fails.
#[derive(Drop)]
pub struct Sink<'a, D> {
    desk: &'a mut D,
    channel: Chan,
    waiting: WaitingBytes,
    stop: Option<WriteStop>,
}

impl<'a, D: Desk> Sink<'a, D> {
    /// Nothing was handed in.
    pub fn new(desk: &'a mut D, channel: Chan) -> Sink<'a, D>
        ensures same_desk { result.desk.ghost_name ≡ desk.entry.ghost_name }
        ensures begins { Begins (D.shows desk.old) (D.faults desk.old) channel.number
            (standing D.shows D.faults result) }
    {
        Sink {
            desk,
            channel,
            waiting: WaitingBytes::new(),
            stop: None,
        }
    }

    /// Hands all that waits to the channel, and answers how many bytes it took in all, or the last number of 64 bits
    /// where there were more. Where a call of the desk has failed, it answers the same of the bytes before.
    pub fn finish(&mut self) -> Result<u64, WriteStop>
        ensures { Ends D.tells (standing D.shows D.faults self.old) (standing D.shows D.faults self.new) result }
    {
        match self.stop {
            Some(stop) => Err(stop),
            None => self.flush(),
        }
    }

    /// The same, where it has not stopped.
    fn flush(&mut self) -> Result<u64, WriteStop>
        requires { self.old.stop ≡ None }
        ensures { Ends D.tells (standing D.shows D.faults self.old) (standing D.shows D.faults self.new) result }
    {
        match self.waiting.flush(self.desk, self.channel) {
            Ok(()) => Ok(self.waiting.taken()),
            Err(stop) => {
                self.stop = Some(stop);
                Err(stop)
            }
        }
    }

    /// Hands in bytes, where it has not stopped.
    fn push_on(&mut self, bytes: &[u8])
        requires { self.old.stop ≡ None }
        ensures { GivesSink D.tells D.shows D.faults self.old bytes.now self.new }
    {
        match self.waiting.push(self.desk, self.channel, bytes) {
            Ok(()) => {}
            Err(stop) => self.stop = Some(stop),
        }
    }
}

impl<'a, D: Desk> TakesBytes for Sink<'a, D> {
    ghost use Rattle.byte_sink.specs.Handing.{GivesSink};
    ghost use Rattle.byte_sink.specs.HandingLaws.{sink_joins};

    ghost gives = { GivesSink D.tells D.shows D.faults };

    ghost joins = { sink_joins D.tells D.shows D.faults };

    fn push(&mut self, bytes: &[u8]) {
        match self.stop {
            Some(_) => {}
            None => self.push_on(bytes),
        }
    }

    fn is_stopped(&self) -> bool {
        match self.stop {
            Some(_) => true,
            None => false,
        }
    }
}
