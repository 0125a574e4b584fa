//! Expressions.

ghost use Rattle.std.specs.Prelude.{◌≡◌, ◌+◌, ◌∷◌, map};
ghost use Rattle.sg_expression.specs.Grammar.{Chain, Operand, Comparison, Item, Atom, Given, OneGiven};
ghost use Rattle.sg_expression.specs.Reading.{Reads, Shortens, Closed, Always, Named, Bracketed, Listed, EndsGiven};
ghost use Rattle.sg_expression.specs.Binding.{StopsAt, level, binding};
ghost use Rattle.sg_token.specs.declared.token.Token.TheVariants as token;
ghost use Rattle.sg_tree.specs.TreeView.{tree_of, argument_of};

use crate::build;
use crate::front::{after_symbol, comparison, count_minus, count_not, name_before, operator};
use crate::rank::Rank;
use sg_nat::Bytes;
use sg_token::{Symbol, Token, TokenFault};
use sg_tree::{Arg, Args, Expr};
use std::alloc::Global;

/// The chain of this rank that the tokens begin with, and what follows it.
#[cycle(expressions)]
pub fn chain(alloc: Global, rank: Rank, tokens: &[Token]) -> Result<(Expr, &[Token]), TokenFault>
    ensures reads { Reads tree_of (Chain rank) (StopsAt (level rank)) tokens.now result }
    ensures shorter { Shortens tokens.now result }
{
    let (first, mut rest) = operand(alloc, rank, tokens)?;
    let mut links = Vec::new(alloc);
    while let Some((op, after)) = operator(rest, rank) {
        let (next, after) = operand(alloc, rank, after)?;
        links.push((op, next))?;
        rest = after;
    }
    Ok((build::chain(alloc, first, links)?, rest))
}

/// The operand of a chain of this rank.
#[cycle(expressions)]
fn operand(alloc: Global, rank: Rank, tokens: &[Token]) -> Result<(Expr, &[Token]), TokenFault>
    ensures reads { Reads tree_of (Operand rank) (StopsAt (level rank + 1)) tokens.now result }
    ensures shorter { Shortens tokens.now result }
{
    match rank {
        Rank::Or => chain(alloc, Rank::And, tokens),
        Rank::And => {
            let (count, rest) = count_not(tokens);
            let (operand, rest) = compared(alloc, rest)?;
            Ok((build::negation(alloc, count, operand)?, rest))
        }
        Rank::Sum => chain(alloc, Rank::Product, tokens),
        Rank::Product => {
            let (count, rest) = count_minus(tokens);
            let (operand, rest) = item(alloc, rest)?;
            Ok((build::minus(alloc, count, operand)?, rest))
        }
    }
}

/// A sum, or two sums with a comparison between them.
#[cycle(expressions)]
fn compared(alloc: Global, tokens: &[Token]) -> Result<(Expr, &[Token]), TokenFault>
    ensures reads { Reads tree_of Comparison (StopsAt 3) tokens.now result }
    ensures shorter { Shortens tokens.now result }
{
    let (left, rest) = chain(alloc, Rank::Sum, tokens)?;
    let Some((relation, rest)) = comparison(rest) else {
        return Ok((left, rest));
    };
    let (right, rest) = chain(alloc, Rank::Sum, rest)?;
    Ok((build::compared(alloc, relation, left, right)?, rest))
}

/// An atom with any number of indices behind it.
#[cycle(expressions)]
fn item(alloc: Global, tokens: &[Token]) -> Result<(Expr, &[Token]), TokenFault>
    ensures reads { Reads tree_of Item (StopsAt 6) tokens.now result }
    ensures shorter { Shortens tokens.now result }
{
    let (list, mut rest) = atom(alloc, tokens)?;
    let mut indices = Vec::new(alloc);
    while let Some(after) = after_symbol(rest, Symbol::OpenBracket) {
        let (index, after) = closed(alloc, after, Symbol::CloseBracket)?;
        indices.push(index)?;
        rest = after;
    }
    Ok((build::item(alloc, list, indices)?, rest))
}

/// An expression and the symbol that closes it.
#[cycle(expressions)]
pub fn closed(
    alloc: Global,
    tokens: &[Token],
    symbol: Symbol,
) -> Result<(Expr, &[Token]), TokenFault>
    requires { binding (token.Symbol symbol) ≡ 0 }
    ensures reads { Reads tree_of (Closed (token.Symbol symbol)) Always tokens.now result }
    ensures shorter { Shortens tokens.now result }
{
    let (inside, rest) = chain(alloc, Rank::Or, tokens)?;
    match after_symbol(rest, symbol) {
        Some(rest) => Ok((inside, rest)),
        None => Err(TokenFault::Syntax),
    }
}

/// A literal, a name, a call, or an expression or a list in brackets.
#[cycle(expressions)]
fn atom(alloc: Global, tokens: &[Token]) -> Result<(Expr, &[Token]), TokenFault>
    ensures reads { Reads tree_of Atom (StopsAt 7) tokens.now result }
    ensures shorter { Shortens tokens.now result }
{
    if let Some(rest) = after_symbol(tokens, Symbol::OpenParenthesis) {
        return closed(alloc, rest, Symbol::CloseParenthesis);
    }
    if let Some(rest) = after_symbol(tokens, Symbol::OpenBracket) {
        return bracketed(alloc, rest);
    }
    let Some((first, rest)) = tokens.split_first() else {
        return Err(TokenFault::Syntax);
    };
    if let Token::Name(name) = first {
        return named(alloc, name, rest);
    }
    match build::literal(first)? {
        Some(found) => Ok((found, rest)),
        None => Err(TokenFault::Syntax),
    }
}

/// A variable, or a call where a parenthesis follows the name.
#[cycle(expressions)]
fn named<'a>(
    alloc: Global,
    name: &Bytes,
    tokens: &'a [Token],
) -> Result<(Expr, &'a [Token]), TokenFault>
    ensures reads { Reads tree_of (Named name.now) (StopsAt 7) tokens.now result }
    ensures shorter { Shortens (token.Name name.now ∷ tokens.now) result }
{
    let Some(rest) = after_symbol(tokens, Symbol::OpenParenthesis) else {
        return Ok((Expr::Var(name.try_clone()?), tokens));
    };
    let (given, rest) = arguments(alloc, rest)?;
    Ok((build::called(name.try_clone()?, given), rest))
}

/// The arguments of a call, from behind the parenthesis that opens them, and what follows the one that closes them.
#[cycle(expressions)]
fn arguments(alloc: Global, tokens: &[Token]) -> Result<(Args, &[Token]), TokenFault>
    ensures reads { Reads (λ given. map argument_of given.items) Given Always tokens.now result }
    ensures shorter { Shortens tokens.now result }
{
    let mut given = Vec::new(alloc);
    if let Some(rest) = after_symbol(tokens, Symbol::CloseParenthesis) {
        return Ok((given, rest));
    }
    let (first, mut rest) = argument(alloc, tokens)?;
    given.push(first)?;
    while let Some(after) = after_symbol(rest, Symbol::Comma) {
        let (next, after) = argument(alloc, after)?;
        given.push(next)?;
        rest = after;
    }
    match after_symbol(rest, Symbol::CloseParenthesis) {
        Some(rest) => Ok((given, rest)),
        None => Err(TokenFault::Syntax),
    }
}

/// An argument of a call: an expression, or a parameter and the expression that it stands in.
#[cycle(expressions)]
fn argument(alloc: Global, tokens: &[Token]) -> Result<(Arg, &[Token]), TokenFault>
    ensures reads { Reads argument_of OneGiven EndsGiven tokens.now result }
    ensures shorter { Shortens tokens.now result }
{
    if let Some((parameter, rest)) = name_before(tokens, Symbol::Arrow) {
        let (body, rest) = chain(alloc, Rank::Or, rest)?;
        return Ok((Arg::Arrow(parameter.try_clone()?, body), rest));
    }
    let (value, rest) = chain(alloc, Rank::Or, tokens)?;
    Ok((Arg::Plain(value), rest))
}

/// A list or a range, from behind the bracket that opens it.
#[cycle(expressions)]
fn bracketed(alloc: Global, tokens: &[Token]) -> Result<(Expr, &[Token]), TokenFault>
    ensures reads { Reads tree_of Bracketed Always tokens.now result }
    ensures shorter { Shortens tokens.now result }
{
    if let Some(rest) = after_symbol(tokens, Symbol::CloseBracket) {
        return Ok((build::list(Vec::new(alloc)), rest));
    }
    let (first, rest) = chain(alloc, Rank::Or, tokens)?;
    match after_symbol(rest, Symbol::Dots) {
        Some(rest) => {
            let (high, rest) = closed(alloc, rest, Symbol::CloseBracket)?;
            Ok((build::range(alloc, first, high)?, rest))
        }
        None => listed(alloc, first, rest),
    }
}

/// The list of the first entry and of those that follow, each behind a comma.
#[cycle(expressions)]
fn listed(alloc: Global, first: Expr, tokens: &[Token]) -> Result<(Expr, &[Token]), TokenFault>
    ensures reads { Reads tree_of (Listed (tree_of first)) Always tokens.now result }
    ensures shorter { Shortens tokens.now result }
{
    let mut entries = Vec::new(alloc);
    entries.push(first)?;
    let mut rest = tokens;
    while let Some(after) = after_symbol(rest, Symbol::Comma) {
        let (next, after) = chain(alloc, Rank::Or, after)?;
        entries.push(next)?;
        rest = after;
    }
    match after_symbol(rest, Symbol::CloseBracket) {
        Some(rest) => Ok((build::list(entries), rest)),
        None => Err(TokenFault::Syntax),
    }
}
