//! Laws of windows: each is the contract of a function without parameters.

ghost use Rattle.std.specs.Prelude.{ℕ, List, [], ◌++◌};
ghost use Rattle.sg_window.specs.Cutting.{AnyCutting};
ghost use Rattle.sg_window.specs.Window.{Holds, State, fresh};

/// However an input is cut into reads, the statements that are found, their lines and how the input ends are those of
/// the whole input, of which there is at most one list.
pub fn any_cutting()
    ensures { AnyCutting }
{}

/// A window that has taken nothing stands for no bytes; and one that stands for some bytes, and then holds more, stands
/// for these and the further ones.
pub fn stands_for()
    ensures fresh { Holds [] 0 fresh }
    ensures more { (bytes got : List ℕ) (feeds taken : ℕ) (w : State) → Holds bytes feeds w → Holds (bytes ++ got) feeds (record w { rest = w.rest ++ got; taken = taken }) }
{}
