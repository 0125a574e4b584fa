//! Nodes of expressions.

ghost use Rattle.std.specs.Prelude.{◌≡◌, map, option_map};
ghost use Rattle.sg_expression.specs.Literals.{literal_of};
ghost use Rattle.sg_expression.specs.Grammar.{joined, negated, signed, indexed};
ghost use Rattle.sg_expression.specs.Reading.{IfNoMemory};
ghost use Rattle.sg_tree.specs.Tree.{compare, span, display, call};
ghost use Rattle.sg_tree.specs.TreeView.{tree_of, trees_of, arguments_of};

use sg_nat::Bytes;
use sg_token::{Token, TokenFault, Word};
use sg_tree::{Args, Expr, Exprs, Links, Rel};
use std::alloc::Global;

/// The chain of the operands, or the first alone where there is no other.
pub fn chain(alloc: Global, first: Expr, links: Links) -> Result<Expr, TokenFault>
    ensures { IfNoMemory result (λ e. tree_of e ≡ joined (tree_of first) (map (λ l. (l.0, tree_of l.1)) links.items)) }
{
    if links.is_empty() {
        return Ok(first);
    }
    Ok(Expr::Chain(Box::new(alloc, first)?, links))
}

/// The operand with so many times `not` before it.
pub fn negation(alloc: Global, count: u64, operand: Expr) -> Result<Expr, TokenFault>
    ensures { IfNoMemory result (λ e. tree_of e ≡ negated count (tree_of operand)) }
{
    if count == 0 {
        return Ok(operand);
    }
    Ok(Expr::Not(count, Box::new(alloc, operand)?))
}

/// The operand with so many minus signs before it.
pub fn minus(alloc: Global, count: u64, operand: Expr) -> Result<Expr, TokenFault>
    ensures { IfNoMemory result (λ e. tree_of e ≡ signed count (tree_of operand)) }
{
    if count == 0 {
        return Ok(operand);
    }
    Ok(Expr::Minus(count, Box::new(alloc, operand)?))
}

/// The item at these indices, or the list itself where there is none.
pub fn item(alloc: Global, list: Expr, indices: Exprs) -> Result<Expr, TokenFault>
    ensures { IfNoMemory result (λ e. tree_of e ≡ indexed (tree_of list) (map tree_of indices.items)) }
{
    if indices.is_empty() {
        return Ok(list);
    }
    Ok(Expr::Item(Box::new(alloc, list)?, indices))
}

/// The comparison of two operands.
pub fn compared(alloc: Global, relation: Rel, left: Expr, right: Expr) -> Result<Expr, TokenFault>
    ensures { IfNoMemory result (λ e. tree_of e ≡ compare relation (tree_of left) (tree_of right)) }
{
    Ok(Expr::Compare(relation, Box::new(alloc, left)?, Box::new(alloc, right)?))
}

/// The range between two bounds.
pub fn range(alloc: Global, low: Expr, high: Expr) -> Result<Expr, TokenFault>
    ensures { IfNoMemory result (λ e. tree_of e ≡ span (tree_of low) (tree_of high)) }
{
    Ok(Expr::Span(Box::new(alloc, low)?, Box::new(alloc, high)?))
}

/// The list of these entries.
pub fn list(entries: Exprs) -> Expr
    ensures { tree_of result ≡ display (trees_of entries.items) }
{
    Expr::Display(entries)
}

/// The call of a command.
pub fn called(name: Bytes, given: Args) -> Expr
    ensures { tree_of result ≡ call name (arguments_of given.items) }
{
    Expr::Call(name, given)
}

/// The literal that a token is.
pub fn literal(token: &Token) -> Result<Option<Expr>, TokenFault>
    ensures { IfNoMemory result (λ found. option_map tree_of found ≡ literal_of token.now) }
{
    match token {
        Token::Number(value) => Ok(Some(Expr::Int(*value))),
        Token::Text(bytes) => Ok(Some(Expr::Text(bytes.try_clone()?))),
        Token::Word(Word::True) => Ok(Some(Expr::Bool(true))),
        Token::Word(Word::False) => Ok(Some(Expr::Bool(false))),
        Token::Word(Word::Fail) => Ok(Some(Expr::Fail)),
        _ => Ok(None),
    }
}
