//! The window.

ghost use Rattle.std.specs.Prelude.{◌≡◌, ◌↔◌, ◌+◌, ◌<◌, ◌≤◌, ℕ, List, [], length, take, true, false, IsTrue, IfOk, Ok, IfSome};
ghost use Rattle.std.specs.Io.KnownBytes.{prepend_known};
ghost use Rattle.sg_cut.specs.declared.limits.TheConstants.{SCRIPT_LIMIT};
ghost use Rattle.sg_io.specs.Faults.{HasCause};
ghost use Rattle.sg_window.specs.Comments.{ends_in_comment};
ghost use Rattle.sg_window.specs.Finds.{Finds};
ghost use Rattle.sg_window.specs.Searched.{StaysOpen};
ghost use Rattle.sg_window.specs.Window.{Fills, HasRoom, Holds, fresh, passed, skipped, with_text};

use crate::answers::{Cut, Filled};
use crate::buffer::Buffer;
use sg_cut::{Piece, SCRIPT_LIMIT, STATEMENT_LIMIT, cut, line_feeds};
use sg_io::{Failed, Source};
use std::alloc::{AllocError, Global};
use std::marker::Model;

/// As many bytes of a script as a statement may have, read from its source and cut into statements.
#[derive(Drop)]
pub struct Window {
    held: Buffer,
    /// The line feeds before what is held behind the text.
    feeds: u64,
    taken: u64,
    ended: bool,
    /// How many bytes of what is held behind the text are known to hold no end of the statement that begins there; 0
    /// where none is known to begin there.
    searched: usize,
}

impl Model for Window {
    ghost use Rattle.std.specs.Prelude.{◌+◌, ◌≤◌, length};
    ghost use Rattle.sg_cut.specs.declared.limits.TheConstants.{SCRIPT_LIMIT};
    ghost use Rattle.sg_window.specs.Searched.{IsSearched};
    ghost use Rattle.sg_window.specs.Window.{State};

    ghost Value = { State };

    ghost view = { λ w. record { text = w.held.text; rest = w.held.rest; feeds = w.feeds; taken = w.taken; ended = w.ended } };

    ghost invariant = { λ w. (w.feeds + length w.held.rest ≤ w.taken) × (w.taken ≤ SCRIPT_LIMIT) × IsSearched w.held.rest w.searched };
}

impl Window {
    /// A window that has taken nothing. It reserves its room, and no later call takes memory.
    pub fn new(alloc: Global) -> Result<Window, AllocError>
        ensures { IfOk result (λ w. w ≡ fresh) }
    {
        Ok(Window {
            held: Buffer::new(alloc)?,
            feeds: 0,
            taken: 0,
            ended: false,
            searched: 0,
        })
    }

    /// Whether one more byte may be held and taken.
    pub fn has_room(&self) -> bool
        ensures { IsTrue result ↔ HasRoom self.now }
    {
        self.held.len() < STATEMENT_LIMIT && self.taken < SCRIPT_LIMIT as u64
    }

    /// How many bytes were taken so far, of which a script has fewer.
    pub fn taken(&self) -> u64
        ensures taken { result ≡ self.now.taken }
        ensures limit { result ≤ SCRIPT_LIMIT }
    {
        self.taken
    }

    /// The statement that was found last, up to the next look for one; else nothing.
    pub fn text(&self) -> &[u8]
        ensures { result.now ≡ self.now.text }
    {
        self.held.text()
    }

    /// Reads the source once, with no more wanted of it than there is room for and a script may still have. There is
    /// room, the end was not seen, and the source is begun. Failed comes only where its count of faults rose in this
    /// call, and leaves the window as it was.
    pub fn fill<S: Source>(&mut self, source: &mut S) -> Result<Filled, Failed>
        requires room { HasRoom self.old }
        requires not_ended { self.old.ended ≡ false }
        requires begun { S.begun source.old ≡ true }

        ensures fills { (got : List ℕ) × Fills result got self.old self.new × (S.left source.old ≡ prepend_known got (S.left source.new)) }
        ensures end { result ≡ Ok Filled.End → IfSome (S.left source.new) (λ rest. rest ≡ []) }
        ensures limit { self.new.taken ≤ SCRIPT_LIMIT }
        ensures cause { HasCause (S.faults source.old) (S.faults source.new) result }

        ensures begun { S.begun source.new ≡ true }
        ensures missing { S.missing source.new ≡ S.missing source.old }
        ensures inputs { S.inputs source.new ≡ S.inputs source.old }
        ensures sure { S.sure source.new ≡ S.sure source.old }
    {
        let missing = SCRIPT_LIMIT as u64 - self.taken;
        let count = self.held.read(source, missing as usize)?;
        if count == 0 {
            self.ended = true;
            return Ok(Filled::End);
        }
        self.taken += count as u64;
        Ok(Filled::Got)
    }

    /// Looks for what stands first behind the last statement, which is let go, with the blanks and comments behind it.
    /// Over all bytes for which the window stands, the answer is what stands first in them.
    pub fn next_statement(&mut self) -> Cut
        ensures finds { (held : List ℕ) (feeds : ℕ) → Holds held feeds self.old → Finds result held feeds self.old self.new }
        ensures more { result ≡ Cut.More → self.new.ended ≡ false }
        ensures taken { self.new.taken ≡ self.old.taken }
        ensures ended { self.new.ended ≡ self.old.ended }
    {
        if self.is_still_open() {
            self.searched = self.held.rest().len();
            self.held.skip(0);
            return Cut::More;
        }
        match cut(self.held.rest(), true) {
            Piece::Statement { begin, end } => {
                let line = self.skip(begin);
                self.take_text(end - begin);
                Cut::Statement { line }
            }
            Piece::TooLong { begin } => Cut::TooLong {
                line: self.skip(begin),
            },
            Piece::Unfinished { begin } if self.ended => Cut::Unfinished {
                line: self.skip(begin),
            },
            Piece::Unfinished { begin } => {
                self.skip(begin);
                self.searched = self.held.rest().len();
                Cut::More
            }
            Piece::End | Piece::Waiting if self.ended => {
                let all = self.held.rest().len();
                self.skip(all);
                Cut::End
            }
            Piece::End | Piece::Waiting => {
                self.pass();
                Cut::More
            }
        }
    }

    /// Whether the statement that is known to be open is so still: what was read since then holds no `;`. So a source
    /// that gives a byte at a time is not searched anew at each.
    fn is_still_open(&self) -> bool
        ensures { result ≡ true → StaysOpen self.now }
    {
        if self.ended {
            return false;
        }
        if self.searched == 0 {
            return false;
        }
        let rest = self.held.rest();
        rest.len() < STATEMENT_LIMIT && !rest[self.searched..].contains(&b';')
    }

    /// Lets the text and so many bytes behind it go, and gives the line of the byte that follows.
    fn skip(&mut self, size: usize) -> u64
        requires { size ≤ length self.old.rest }
        ensures skips { self.new ≡ skipped size self.old }
        ensures line { result ≡ 1 + self.new.feeds }
    {
        let (gone, _) = self.held.rest().split_at(size);
        self.feeds += line_feeds(gone);
        self.searched = 0;
        self.held.skip(size);
        1 + self.feeds
    }

    /// Makes so many bytes behind the text the text.
    fn take_text(&mut self, size: usize)
        requires { size ≤ length self.old.rest }
        ensures { self.new ≡ with_text size self.old }
    {
        let (text, _) = self.held.rest().split_at(size);
        self.feeds += line_feeds(text);
        self.searched = 0;
        self.held.take(size);
    }

    /// Lets the blanks and comments that are held go, but for the sign of a comment that may go on.
    fn pass(&mut self)
        ensures { self.new ≡ passed self.old }
    {
        let rest = self.held.rest();
        let size = rest.len();
        self.feeds += line_feeds(rest);
        self.searched = 0;
        if ends_in_comment(rest) {
            self.held.keep_sign();
        } else {
            self.held.skip(size);
        }
    }
}

/// Whether blanks and comments end inside a comment.
fn ends_in_comment(bytes: &[u8]) -> bool
    ensures { result ≡ ends_in_comment bytes.now }
{
    let mut goes_on = false;
    for byte in bytes {
        goes_on = *byte == b'#' || (goes_on && *byte != b'\n');
    }
    goes_on
}
