//! What tokens begin with: an operator, a comparison, a given symbol or word, a name before one, so many signs.

ghost use Rattle.std.specs.Prelude.{◌≡◌, ◌∷◌, ◌<◌, ◌≤◌, List, length, ⊤, MatchOption};
ghost use Rattle.sg_expression.specs.Reading.{Counts, NamesNot, IsAfter, Operates, OperatesNot, Compares, ComparesNot};
ghost use Rattle.sg_token.specs.declared.token.Token.TheVariants as token;
ghost use Rattle.sg_expression.specs.Binding.{op_of, relation_of, rank_of};

use crate::rank::Rank;
use sg_nat::Bytes;
use sg_token::{Symbol, Token, Word};
use sg_tree::{Op, Rel};

/// The operator of a chain that a token is.
fn operator_of(token: &Token) -> Option<Op>
    ensures { result ≡ op_of token.now }
{
    match token {
        Token::Word(Word::Or) => Some(Op::Or),
        Token::Word(Word::And) => Some(Op::And),
        Token::Word(Word::Mod) => Some(Op::Mod),
        Token::Symbol(Symbol::Plus) => Some(Op::Plus),
        Token::Symbol(Symbol::Minus) => Some(Op::Less),
        Token::Symbol(Symbol::Times) => Some(Op::Times),
        _ => None,
    }
}

/// The comparison that a token is.
fn comparison_of(token: &Token) -> Option<Rel>
    ensures { result ≡ relation_of token.now }
{
    match token {
        Token::Word(Word::In) => Some(Rel::Member),
        Token::Symbol(Symbol::Equal) => Some(Rel::Eq),
        Token::Symbol(Symbol::Unequal) => Some(Rel::Ne),
        Token::Symbol(Symbol::Below) => Some(Rel::Lt),
        Token::Symbol(Symbol::AtMost) => Some(Rel::Le),
        Token::Symbol(Symbol::Above) => Some(Rel::Gt),
        Token::Symbol(Symbol::AtLeast) => Some(Rel::Ge),
        _ => None,
    }
}

/// The rank of an operator.
fn operator_rank(op: Op) -> Rank
    ensures { result ≡ rank_of op }
{
    match op {
        Op::Or => Rank::Or,
        Op::And => Rank::And,
        Op::Plus | Op::Less => Rank::Sum,
        Op::Times | Op::Mod => Rank::Product,
    }
}

/// The operator of this rank that the tokens begin with.
pub fn operator(tokens: &[Token], rank: Rank) -> Option<(Op, &[Token])>
    ensures operator { MatchOption result (OperatesNot tokens.now rank) (λ p. Operates tokens.now rank p.0 p.1.now) }
    ensures shorter { MatchOption result ⊤ (λ p. length p.1.now < length tokens.now) }
{
    let (first, rest) = tokens.split_first()?;
    let found = operator_of(first)?;
    if operator_rank(found) == rank {
        Some((found, rest))
    } else {
        None
    }
}

/// The comparison that the tokens begin with.
pub fn comparison(tokens: &[Token]) -> Option<(Rel, &[Token])>
    ensures comparison { MatchOption result (ComparesNot tokens.now) (λ p. Compares tokens.now p.0 p.1.now) }
    ensures shorter { MatchOption result ⊤ (λ p. length p.1.now < length tokens.now) }
{
    let (first, rest) = tokens.split_first()?;
    Some((comparison_of(first)?, rest))
}

/// What follows this symbol, where the tokens begin with it.
pub fn after_symbol(tokens: &[Token], symbol: Symbol) -> Option<&[Token]>
    ensures after { IsAfter tokens.now (token.Symbol symbol) result }
    ensures shorter { MatchOption result ⊤ (λ rest. length rest.now < length tokens.now) }
{
    let (first, rest) = tokens.split_first()?;
    match first {
        Token::Symbol(found) if *found == symbol => Some(rest),
        _ => None,
    }
}

/// What follows this word, where the tokens begin with it.
pub fn after_word(tokens: &[Token], word: Word) -> Option<&[Token]>
    ensures after { IsAfter tokens.now (token.Word word) result }
    ensures shorter { MatchOption result ⊤ (λ rest. length rest.now < length tokens.now) }
{
    let (first, rest) = tokens.split_first()?;
    match first {
        Token::Word(found) if *found == word => Some(rest),
        _ => None,
    }
}

/// The name that the tokens begin with, where this symbol follows it, and what follows both.
pub fn name_before(tokens: &[Token], symbol: Symbol) -> Option<(&Bytes, &[Token])>
    ensures name { MatchOption result (NamesNot tokens.now (token.Symbol symbol)) (λ p. tokens.now ≡ token.Name p.0.now ∷ (token.Symbol symbol ∷ p.1.now)) }
    ensures shorter { MatchOption result ⊤ (λ p. length p.1.now < length tokens.now) }
{
    let (first, rest) = tokens.split_first()?;
    let Token::Name(name) = first else {
        return None;
    };
    Some((name, after_symbol(rest, symbol)?))
}

/// The name that the tokens begin with, where this word follows it, and what follows both.
pub fn name_before_word(tokens: &[Token], word: Word) -> Option<(&Bytes, &[Token])>
    ensures name { MatchOption result (NamesNot tokens.now (token.Word word)) (λ p. tokens.now ≡ token.Name p.0.now ∷ (token.Word word ∷ p.1.now)) }
    ensures shorter { MatchOption result ⊤ (λ p. length p.1.now < length tokens.now) }
{
    let (first, rest) = tokens.split_first()?;
    let Token::Name(name) = first else {
        return None;
    };
    Some((name, after_word(rest, word)?))
}

/// How many times the tokens begin with `not`, and what follows that.
pub fn count_not(tokens: &[Token]) -> (u64, &[Token])
    ensures counts { Counts tokens.now (token.Word Word.Not) result.0 result.1.now }
    ensures shorter { length result.1.now ≤ length tokens.now }
{
    let mut count = 0;
    let mut rest = tokens;
    while let Some(after) = after_word(rest, Word::Not) {
        count += 1;
        rest = after;
    }
    (count, rest)
}

/// How many minus signs the tokens begin with, and what follows them.
pub fn count_minus(tokens: &[Token]) -> (u64, &[Token])
    ensures counts { Counts tokens.now (token.Symbol Symbol.Minus) result.0 result.1.now }
    ensures shorter { length result.1.now ≤ length tokens.now }
{
    let mut count = 0;
    let mut rest = tokens;
    while let Some(after) = after_symbol(rest, Symbol::Minus) {
        count += 1;
        rest = after;
    }
    (count, rest)
}
