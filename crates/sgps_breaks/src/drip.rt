//! A sink that takes one byte a call.

use sg_io::{Sink, SinkFault};
use std::alloc::Global;

/// A sink that takes one byte of each piece, and never fails.
#[derive(Drop)]
pub struct Drip {
    bytes: Vec<u8>,
}

impl Drip {
    /// A sink that took nothing.
    pub fn new(alloc: Global) -> Drip {
        Drip {
            bytes: Vec::new(alloc),
        }
    }

    /// What it took.
    pub fn bytes(&self) -> &[u8] {
        &self.bytes
    }
}

impl Sink for Drip {
    ghost use Rattle.std.specs.Prelude.{Some, true};
    ghost use Rattle.sgps_breaks.specs.Drip.{dripped, drip_count_fits, drip_sure_means};

    ghost taken = { λ s. Some (dripped s) };

    ghost faults = { λ s. 0 };

    ghost sure = { λ s. true };

    ghost count_fits = { drip_count_fits };

    ghost sure_means = { drip_sure_means };

    /// Takes the first byte of the piece. Memory: there is no room for it.
    fn write(&mut self, piece: &[u8]) -> Result<usize, SinkFault> {
        self.bytes
            .extend_from_slice(&piece[..1])
            .map_err(|_| SinkFault::Memory)?;
        Ok(1)
    }
}
