//! Where the output of a drill goes.

ghost use Rattle.std.specs.Prelude.{◌≤◌, length};

use sg_io::{Sink, SinkFault};
use std::alloc::Global;

/// The most bytes that a tally takes: a drill prints far fewer.
const MOST_BYTES: usize = 4_294_967_296;

/// A sink that counts the bytes that it takes and adds them up. It shows none, and never fails. It keeps them, so that a
/// contract can tell what they were.
#[derive(Drop)]
pub struct Tally {
    bytes: Vec<u8>,
    ghost few: { length bytes.items ≤ 4294967296 },
}

impl Tally {
    ghost use Rattle.std.specs.Prelude.{◌≡◌, [], sum};
    ghost use Rattle.sg_drill.specs.Tally.{printed};

    /// A tally of nothing. It takes no memory.
    pub fn new(alloc: Global) -> Tally
        ensures { printed result ≡ [] }
    {
        Tally {
            bytes: Vec::new(alloc),
        }
    }

    /// How many bytes it took.
    pub fn count(&self) -> usize
        ensures { result ≡ length (printed self.now) }
    {
        self.bytes.len()
    }

    /// The sum of these bytes.
    pub fn sum(&self) -> u64
        ensures { result ≡ sum (printed self.now) }
    {
        let mut sum = 0u64;
        for byte in &self.bytes {
            sum += u64::from(*byte);
        }
        sum
    }
}

impl Sink for Tally {
    ghost use Rattle.std.specs.Prelude.{Some, true};
    ghost use Rattle.sg_drill.specs.Tally.{printed, tally_count_fits, tally_sure_means};

    ghost taken = { λ s. Some (printed s) };

    ghost faults = { λ s. 0 };

    ghost sure = { λ s. true };

    ghost count_fits = { tally_count_fits };

    ghost sure_means = { tally_sure_means };

    /// Takes the whole piece. Memory: there is no room for it.
    fn write(&mut self, piece: &[u8]) -> Result<usize, SinkFault> {
        if piece.len() > MOST_BYTES - self.bytes.len() {
            return Err(SinkFault::Memory);
        }
        self.bytes
            .extend_from_slice(piece)
            .map_err(|_| SinkFault::Memory)?;
        Ok(piece.len())
    }
}
