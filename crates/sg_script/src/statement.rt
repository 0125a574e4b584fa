//! Statements.

ghost use Rattle.std.specs.Prelude.{◌≡◌, map};
ghost use Rattle.sg_script.specs.Bodies.{ends_body, EndsBody, Choice, Repetition};
ghost use Rattle.sg_script.specs.Grammar.{Arm, Otherwise, Body, OneOf};
ghost use Rattle.sg_expression.specs.Reading.{Reads, Shortens, ShortensNot, Closed, Always};
ghost use Rattle.sg_expression.specs.Binding.{binding};
ghost use Rattle.sg_token.specs.declared.token.Token.TheVariants as token;
ghost use Rattle.sg_tree.specs.TreeView.{tree_of, code_of, block_of};

use sg_expression::{Rank, after_symbol, after_word, chain, closed, name_before, name_before_word};
use sg_token::{Symbol, Token, TokenFault, Word};
use sg_tree::{Block, Expr, Stmt};
use std::alloc::Global;

/// An expression and the word behind it.
fn before_word(alloc: Global, tokens: &[Token], word: Word) -> Result<(Expr, &[Token]), TokenFault>
    requires { binding (token.Word word) ≡ 0 }
    ensures reads { Reads tree_of (Closed (token.Word word)) Always tokens.now result }
    ensures shorter { Shortens tokens.now result }
{
    let (inside, rest) = chain(alloc, Rank::Or, tokens)?;
    match after_word(rest, word) {
        Some(rest) => Ok((inside, rest)),
        None => Err(TokenFault::Syntax),
    }
}

/// Whether the tokens begin with a word that ends a block.
fn is_block_over(tokens: &[Token]) -> bool
    ensures { result ≡ ends_body tokens.now }
{
    let Some((first, _)) = tokens.split_first() else {
        return false;
    };
    match first {
        Token::Word(Word::Elif | Word::Else | Word::Fi | Word::Od) => true,
        _ => false,
    }
}

/// A statement that may stand in a block.
#[cycle(statements)]
pub fn one_statement(alloc: Global, tokens: &[Token]) -> Result<(Stmt, &[Token]), TokenFault>
    ensures reads { Reads code_of OneOf Always tokens.now result }
    ensures shorter { Shortens tokens.now result }
{
    if let Some(rest) = after_symbol(tokens, Symbol::Semicolon) {
        return Ok((Stmt::Empty, rest));
    }
    if let Some((name, rest)) = name_before(tokens, Symbol::Assign) {
        let (value, rest) = closed(alloc, rest, Symbol::Semicolon)?;
        return Ok((Stmt::Assign(name.try_clone()?, value), rest));
    }
    if let Some(rest) = after_word(tokens, Word::If) {
        return choice(alloc, rest);
    }
    if let Some(rest) = after_word(tokens, Word::For) {
        return repetition(alloc, rest);
    }
    let (value, rest) = closed(alloc, tokens, Symbol::Semicolon)?;
    Ok((Stmt::Do(value), rest))
}

/// The statements of a block, up to the word that ends it.
#[cycle(statements)]
fn body(alloc: Global, tokens: &[Token]) -> Result<(Block, &[Token]), TokenFault>
    ensures reads { Reads (λ b. map code_of b.items) Body EndsBody tokens.now result }
    ensures shorter { ShortensNot tokens.now result }
{
    let mut found = Vec::new(alloc);
    let mut rest = tokens;
    while !is_block_over(rest) {
        let (next, after) = one_statement(alloc, rest)?;
        found.push(next)?;
        rest = after;
    }
    Ok((found, rest))
}

/// A condition, `then`, and the block that it guards.
#[cycle(statements)]
fn arm(alloc: Global, tokens: &[Token]) -> Result<((Expr, Block), &[Token]), TokenFault>
    ensures reads { Reads (λ a. (tree_of a.0, block_of a.1.items)) Arm EndsBody tokens.now result }
    ensures shorter { Shortens tokens.now result }
{
    let (test, rest) = before_word(alloc, tokens, Word::Then)?;
    let (guarded, rest) = body(alloc, rest)?;
    Ok(((test, guarded), rest))
}

/// A choice, from behind its `if`.
#[cycle(statements)]
fn choice(alloc: Global, tokens: &[Token]) -> Result<(Stmt, &[Token]), TokenFault>
    ensures reads { Reads code_of Choice Always tokens.now result }
    ensures shorter { Shortens tokens.now result }
{
    let mut arms = Vec::new(alloc);
    let (first, mut rest) = arm(alloc, tokens)?;
    arms.push(first)?;
    while let Some(after) = after_word(rest, Word::Elif) {
        let (next, after) = arm(alloc, after)?;
        arms.push(next)?;
        rest = after;
    }
    let (other, rest) = otherwise(alloc, rest)?;
    match after_symbol(rest, Symbol::Semicolon) {
        Some(rest) => Ok((Stmt::If(arms, other), rest)),
        None => Err(TokenFault::Syntax),
    }
}

/// The block behind `else`, or none, and the word `fi`.
#[cycle(statements)]
fn otherwise(alloc: Global, tokens: &[Token]) -> Result<(Block, &[Token]), TokenFault>
    ensures reads { Reads (λ b. map code_of b.items) Otherwise Always tokens.now result }
    ensures shorter { Shortens tokens.now result }
{
    if let Some(rest) = after_word(tokens, Word::Fi) {
        return Ok((Vec::new(alloc), rest));
    }
    let Some(rest) = after_word(tokens, Word::Else) else {
        return Err(TokenFault::Syntax);
    };
    let (other, rest) = body(alloc, rest)?;
    match after_word(rest, Word::Fi) {
        Some(rest) => Ok((other, rest)),
        None => Err(TokenFault::Syntax),
    }
}

/// A repetition, from behind its `for`.
#[cycle(statements)]
fn repetition(alloc: Global, tokens: &[Token]) -> Result<(Stmt, &[Token]), TokenFault>
    ensures reads { Reads code_of Repetition Always tokens.now result }
    ensures shorter { Shortens tokens.now result }
{
    let Some((name, rest)) = name_before_word(tokens, Word::In) else {
        return Err(TokenFault::Syntax);
    };
    let (list, rest) = before_word(alloc, rest, Word::Do)?;
    let (guarded, rest) = body(alloc, rest)?;
    let Some(rest) = after_word(rest, Word::Od) else {
        return Err(TokenFault::Syntax);
    };
    match after_symbol(rest, Symbol::Semicolon) {
        Some(rest) => Ok((Stmt::For(name.try_clone()?, list, guarded), rest)),
        None => Err(TokenFault::Syntax),
    }
}
