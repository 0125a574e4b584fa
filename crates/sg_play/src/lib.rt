//! What a script does, over all of its bytes: the definition that the whole run is held to.
//!
//! `specs/Play` takes statements from the front of the bytes and executes them in turn: `Cut` says where the next one
//! stands, `IsReadAs` what its text is read as, and the process of `sg_meaning` what it does. A statement that is refused ends
//! the play, or is passed with its line, where the play is kept going. The outcome has what was written, which statements
//! were passed, how the play ended, with the line, and the place of the statement that ended it. `specs/Left` says what a
//! play has written that was left before its end. `laws` has what the run needs: a play has one outcome, more bytes
//! only extend it, and one that was left has written a front of it.
#![tactic(auto)]

pub mod laws;
