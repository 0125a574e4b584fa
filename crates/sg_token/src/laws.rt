//! Laws of the definitions.

ghost use Rattle.std.specs.Prelude.{◌≡◌, ◌≤◌, ◌++◌, ℕ, List, length, Some};
ghost use Rattle.sg_token.specs.Symbols.{spelling_of_symbol, symbol_before};
ghost use Rattle.sg_token.specs.declared.symbol.Symbol.{Symbol};
ghost use Rattle.sg_token.specs.Tokens.{FallsInto};
ghost use Rattle.sg_token.specs.declared.token.Token.{Token};

/// A text falls into one list of tokens at most.
pub fn one_list_of_tokens()
    ensures { (text : List ℕ) (found others : List Token) → FallsInto text found → FallsInto text others → found ≡ others }
{}

/// Where a symbol begins a text, one is read there, and none that begins the text is longer.
pub fn longest_symbol()
    ensures { (other : Symbol) (rest : List ℕ) → (read : Symbol) × (symbol_before (spelling_of_symbol other ++ rest) ≡ Some read) × (length (spelling_of_symbol other) ≤ length (spelling_of_symbol read)) }
{}
