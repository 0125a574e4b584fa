//! The bytes of a window.

ghost use Rattle.std.specs.Prelude.{◌≡◌, ◌+◌, ◌<◌, ◌≤◌, ◌++◌, ℕ, List, [], ◌∷◌, ◌-◌, length, take, drop, slice_range, true, IfOk, Ok, Err, IfSome, OnOk, OnErr};
ghost use Rattle.std.specs.Io.KnownBytes.{prepend_known};
ghost use Rattle.sg_cut.specs.declared.limits.TheConstants.{STATEMENT_LIMIT};
ghost use Rattle.sg_io.specs.Faults.{HasCause};
ghost use Rattle.sg_window.specs.Held.{Held, Reads, holding};

use sg_cut::STATEMENT_LIMIT;
use sg_io::{Failed, Source};
use std::alloc::{AllocError, Global};
use std::marker::Model;

/// A statement's text, and what is held behind it, as many bytes together as a statement may have. Contracts see these
/// two.
#[derive(Drop)]
pub struct Buffer {
    bytes: Vec<u8>,
    /// Where the text begins.
    start: usize,
    /// Where it ends.
    stop: usize,
    /// Where what is held ends.
    end: usize,
}

impl Model for Buffer {
    ghost use Rattle.sg_cut.specs.declared.limits.TheConstants.{STATEMENT_LIMIT};
    ghost use Rattle.sg_window.specs.Held.{Held, holding};
    ghost use Rattle.std.specs.Prelude.{◌≡◌, ◌≤◌, length, slice_range};

    ghost Value = { Held };

    ghost view = { λ b. holding (slice_range b.bytes.items b.start b.stop) (slice_range b.bytes.items b.stop b.end) };

    ghost invariant = { λ b. (b.start ≤ b.stop) × (b.stop ≤ b.end) × (b.end ≤ STATEMENT_LIMIT) × (length b.bytes.items ≡ STATEMENT_LIMIT) };
}

impl Buffer {
    /// Nothing is held. This is the one call that takes memory.
    pub fn new(alloc: Global) -> Result<Buffer, AllocError>
        ensures { IfOk result (λ b. b ≡ holding [] []) }
    {
        Ok(Buffer {
            bytes: vec![in alloc; 0; STATEMENT_LIMIT]?,
            start: 0,
            stop: 0,
            end: 0,
        })
    }

    /// The text.
    pub fn text(&self) -> &[u8]
        ensures { result.now ≡ self.now.text }
    {
        &self.bytes[self.start..self.stop]
    }

    /// What is held behind the text.
    pub fn rest(&self) -> &[u8]
        ensures rest { result.now ≡ self.now.rest }
        ensures room { length result.now ≤ STATEMENT_LIMIT }
    {
        &self.bytes[self.stop..self.end]
    }

    /// How many bytes are held.
    pub fn len(&self) -> usize
        ensures held { result ≡ length self.now.text + length self.now.rest }
        ensures room { result ≤ STATEMENT_LIMIT }
    {
        self.end - self.start
    }

    /// The first `size` bytes behind the text are the text now.
    pub fn take(&mut self, size: usize)
        requires { size ≤ length self.old.rest }
        ensures { self.new ≡ holding (take size self.old.rest) (drop size self.old.rest) }
    {
        self.start = self.stop;
        self.stop += size;
    }

    /// The text, and the first `size` bytes behind it, are let go.
    pub fn skip(&mut self, size: usize)
        requires { size ≤ length self.old.rest }
        ensures { self.new ≡ holding [] (drop size self.old.rest) }
    {
        self.stop += size;
        self.start = self.stop;
    }

    /// All is let go, and the sign of a comment is held.
    pub fn keep_sign(&mut self)
        ensures { self.new ≡ holding [] (35 ∷ []) }
    {
        self.bytes[0] = b'#';
        self.start = 0;
        self.stop = 0;
        self.end = 1;
    }

    /// Reads the source once, at most `most` bytes, behind what is held.
    pub fn read<S: Source>(&mut self, source: &mut S, most: usize) -> Result<usize, Failed>
        requires room { length self.old.text + length self.old.rest < STATEMENT_LIMIT }
        requires some { 0 < most }
        requires begun { S.begun source.old ≡ true }

        ensures reads { (got : List ℕ) × Reads result got self.old self.new × (S.left source.old ≡ prepend_known got (S.left source.new)) }
        ensures most { IfOk result (λ n. n ≤ most) }
        ensures end { IfOk result (λ n. n ≡ 0 → IfSome (S.left source.new) (λ rest. rest ≡ [])) }
        ensures cause { HasCause (S.faults source.old) (S.faults source.new) result }

        ensures begun { S.begun source.new ≡ true }
        ensures missing { S.missing source.new ≡ S.missing source.old }
        ensures inputs { S.inputs source.new ≡ S.inputs source.old }
        ensures sure { S.sure source.new ≡ S.sure source.old }
    {
        move_to_front(&mut self.bytes, self.start, self.end);
        self.stop -= self.start;
        self.end -= self.start;
        self.start = 0;
        let room = (STATEMENT_LIMIT - self.end).min(most);
        let count = source.read(&mut self.bytes[self.end..self.end + room])?;
        self.end += count;
        Ok(count)
    }
}

/// Moves a part of the bytes to the front.
fn move_to_front(bytes: &mut Vec<u8>, start: usize, end: usize)
    requires order { start ≤ end }
    requires within { end ≤ length bytes.old.items }
    ensures moved { take (end - start) bytes.new.items ≡ slice_range bytes.old.items start end }
    ensures size { length bytes.new.items ≡ length bytes.old.items }
{
    if start > 0 {
        bytes.copy_within(start..end, 0);
    }
}
