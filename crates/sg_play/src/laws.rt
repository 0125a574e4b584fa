//! Laws over the definitions, each the contract of a function that does nothing.

ghost use Rattle.sg_play.specs.Laws.{Extends, LeftInFront, OnePlay, SomePlay};

/// Some bytes are played in at most one way: with one record, one ending and one place.
pub fn one_play()
    ensures { OnePlay }
{}

/// Any bytes are played: each statement ends, and the play comes to an ending.
pub fn some_play()
    ensures { SomePlay }
{}

/// A play that has ended stays as it is whatever follows, and one that waits for more has written a front of what the
/// longer play writes.
pub fn play_extends()
    ensures { Extends }
{}

/// A play that was left before its end has written a front of what the whole play writes, whatever follows.
pub fn left_in_front()
    ensures { LeftInFront }
{}
