//! Lines.

ghost use Rattle.std.specs.Prelude.{◌≡◌};
ghost use Rattle.sg_cut.specs.Lines.{count_of_line_feeds};

/// How many line feeds the bytes have. A byte's line is 1 and the line feeds before it.
pub fn line_feeds(bytes: &[u8]) -> u64
    ensures { result ≡ count_of_line_feeds bytes.now }
{
    bytes.iter().filter(|byte| **byte == b'\n').count() as u64
}
