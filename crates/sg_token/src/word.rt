//! Reserved words.

ghost use Rattle.std.specs.Prelude.{◌≡◌, find, bytes_eq};
ghost use Rattle.sg_token.specs.ReservedWords.{spelling_of_word, reserved};

/// A reserved word.
#[derive(Clone, Copy, PartialEq, Eq, Debug)]
pub enum Word {
    And,
    Do,
    Elif,
    Else,
    Fail,
    False,
    Fi,
    For,
    If,
    In,
    Mod,
    Not,
    Od,
    Or,
    Quit,
    Then,
    True,
    Break,
    Continue,
    End,
    Function,
    Local,
    Rec,
    Repeat,
    Return,
    Until,
    While,
}

const WORDS: [Word; 27] = [
    Word::And,
    Word::Do,
    Word::Elif,
    Word::Else,
    Word::Fail,
    Word::False,
    Word::Fi,
    Word::For,
    Word::If,
    Word::In,
    Word::Mod,
    Word::Not,
    Word::Od,
    Word::Or,
    Word::Quit,
    Word::Then,
    Word::True,
    Word::Break,
    Word::Continue,
    Word::End,
    Word::Function,
    Word::Local,
    Word::Rec,
    Word::Repeat,
    Word::Return,
    Word::Until,
    Word::While,
];

impl Word {
    /// The bytes that spell the word.
    fn spelling(self) -> &'static [u8]
        ensures { result.now ≡ spelling_of_word self }
    {
        match self {
            Word::And => b"and",
            Word::Do => b"do",
            Word::Elif => b"elif",
            Word::Else => b"else",
            Word::Fail => b"fail",
            Word::False => b"false",
            Word::Fi => b"fi",
            Word::For => b"for",
            Word::If => b"if",
            Word::In => b"in",
            Word::Mod => b"mod",
            Word::Not => b"not",
            Word::Od => b"od",
            Word::Or => b"or",
            Word::Quit => b"quit",
            Word::Then => b"then",
            Word::True => b"true",
            Word::Break => b"break",
            Word::Continue => b"continue",
            Word::End => b"end",
            Word::Function => b"function",
            Word::Local => b"local",
            Word::Rec => b"rec",
            Word::Repeat => b"repeat",
            Word::Return => b"return",
            Word::Until => b"until",
            Word::While => b"while",
        }
    }
}

/// The reserved word that is spelled so.
pub fn word_spelled(run: &[u8]) -> Option<Word>
    ensures { result ≡ reserved run.now }
{
    first_spelled(&WORDS, run)
}

/// The first of the words that is spelled so.
fn first_spelled(words: &[Word], run: &[u8]) -> Option<Word>
    ensures { result ≡ find (λ w. bytes_eq (spelling_of_word w) run.now) words.now }
{
    for word in words {
        if word.spelling() == run {
            return Some(*word);
        }
    }
    None
}
