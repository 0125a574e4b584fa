//! A source without end.

use crate::program::run;
use sg_io::{Failed, MemSink, Source};
use std::test::Fail;

/// A source that gives line feeds without end, and tells none of them.
#[derive(Drop)]
struct LineFeeds {
    begun: bool,
}

impl Source for LineFeeds {
    ghost use Rattle.std.specs.Prelude.{None, false, refl};
    ghost use Rattle.sg_io.specs.StdLaws.{none_missing, never};

    ghost inputs = { λ _. None };

    ghost left = { λ _. None };

    ghost begun = { λ s. s.begun };

    ghost faults = { λ _. 0 };

    ghost missing = { λ _. 0 };

    ghost sure = { λ _. false };

    ghost counts_fit = { λ s. (none_missing, none_missing) };

    ghost tells_both = { λ s. refl };

    ghost nothing_before = { λ s h. tt };

    ghost sure_tells = { λ s h. never h };

    fn begin(&mut self, _name: Option<&str>) -> Result<(), Failed> {
        self.begun = true;
        Ok(())
    }

    fn read(&mut self, buf: &mut [u8]) -> Result<usize, Failed> {
        buf.fill(b'\n');
        Ok(buf.len())
    }
}

#[test]
fn a_source_without_end_is_left_at_the_limit(rt: HostRuntime) -> Result<(), Fail> {
    let mut source = LineFeeds { begun: false };
    let mut out = MemSink::new(rt.alloc(), &[])?;
    let mut err = MemSink::new(rt.alloc(), &[])?;
    let ending = run(rt.alloc(), &[], &mut source, &mut out, &mut err);
    assert_eq!(rt; ending.status, 3);
    assert!(rt; out.bytes().is_empty());
    assert!(rt; err.bytes() == b"sgps: script too long\n".as_slice());
    Ok(())
}
