//! Symbols.

ghost use Rattle.std.specs.Prelude.{◌≡◌, ◌≤◌, ◌==◌, length, find, IfSome};
ghost use Rattle.std.specs.List.{starts_with};
ghost use Rattle.sg_token.specs.Symbols.{spelling_of_symbol, symbol_before};

/// A symbol.
#[derive(Clone, Copy, PartialEq, Eq, Debug)]
pub enum Symbol {
    /// `:=`
    Assign,
    /// `..`
    Dots,
    /// `->`
    Arrow,
    /// `<>`
    Unequal,
    /// `<=`
    AtMost,
    /// `>=`
    AtLeast,
    /// `;`
    Semicolon,
    /// `,`
    Comma,
    /// `(`
    OpenParenthesis,
    /// `)`
    CloseParenthesis,
    /// `[`
    OpenBracket,
    /// `]`
    CloseBracket,
    /// `+`
    Plus,
    /// `-`
    Minus,
    /// `*`
    Times,
    /// `=`
    Equal,
    /// `<`
    Below,
    /// `>`
    Above,
}

// the longer ones first
const SYMBOLS: [Symbol; 18] = [
    Symbol::Assign,
    Symbol::Dots,
    Symbol::Arrow,
    Symbol::Unequal,
    Symbol::AtMost,
    Symbol::AtLeast,
    Symbol::Semicolon,
    Symbol::Comma,
    Symbol::OpenParenthesis,
    Symbol::CloseParenthesis,
    Symbol::OpenBracket,
    Symbol::CloseBracket,
    Symbol::Plus,
    Symbol::Minus,
    Symbol::Times,
    Symbol::Equal,
    Symbol::Below,
    Symbol::Above,
];

impl Symbol {
    /// The bytes that spell the symbol.
    pub fn spelling(self) -> &'static [u8]
        ensures { result.now ≡ spelling_of_symbol self }
    {
        match self {
            Symbol::Assign => b":=",
            Symbol::Dots => b"..",
            Symbol::Arrow => b"->",
            Symbol::Unequal => b"<>",
            Symbol::AtMost => b"<=",
            Symbol::AtLeast => b">=",
            Symbol::Semicolon => b";",
            Symbol::Comma => b",",
            Symbol::OpenParenthesis => b"(",
            Symbol::CloseParenthesis => b")",
            Symbol::OpenBracket => b"[",
            Symbol::CloseBracket => b"]",
            Symbol::Plus => b"+",
            Symbol::Minus => b"-",
            Symbol::Times => b"*",
            Symbol::Equal => b"=",
            Symbol::Below => b"<",
            Symbol::Above => b">",
        }
    }
}

/// The longest symbol that the text begins with.
pub fn longest_symbol(text: &[u8]) -> Option<Symbol>
    ensures symbol { result ≡ symbol_before text.now }
    ensures within { IfSome result (λ s. length (spelling_of_symbol s) ≤ length text.now) }
{
    first_before(&SYMBOLS, text)
}

/// The first of the symbols that the text begins with.
fn first_before(symbols: &[Symbol], text: &[u8]) -> Option<Symbol>
    ensures symbol { result ≡ find (λ s. starts_with ◌==◌ text.now (spelling_of_symbol s)) symbols.now }
    ensures within { IfSome result (λ s. length (spelling_of_symbol s) ≤ length text.now) }
{
    for symbol in symbols {
        if text.starts_with(symbol.spelling()) {
            return Some(*symbol);
        }
    }
    None
}
