//! The tree of a text.

ghost use Rattle.std.specs.Prelude.{◌≡◌, IfOk};
ghost use Rattle.sg_script.specs.Outcome.{Outcome, IsReadAs, Tells, IsMadeOf};
ghost use Rattle.sg_tree.specs.TreeView.{code_of};
ghost use Rattle.sg_tree.specs.WellFormed.{IsWellFormedCode};

use crate::depth::is_too_deep;
use crate::fault::ParseFault;
use crate::statement::one_statement;
use sg_expression::{after_symbol, after_word};
use sg_token::{Symbol, Token, TokenFault, Word, read_tokens};
use sg_tree::Stmt;
use std::alloc::Global;

/// The statement that the tokens are.
fn whole_statement(alloc: Global, tokens: &[Token]) -> Result<Stmt, TokenFault>
    ensures { IsMadeOf tokens.now result }
{
    if let Some(rest) = after_word(tokens, Word::Quit) {
        let Some(rest) = after_symbol(rest, Symbol::Semicolon) else {
            return Err(TokenFault::Syntax);
        };
        return if rest.is_empty() {
            Ok(Stmt::Quit)
        } else {
            Err(TokenFault::Syntax)
        };
    }
    let (stmt, rest) = one_statement(alloc, tokens)?;
    if rest.is_empty() {
        Ok(stmt)
    } else {
        Err(TokenFault::Syntax)
    }
}

/// What the text is read as.
fn outcome_of(alloc: Global, text: &[u8]) -> Result<Stmt, ParseFault>
    ensures { Tells result (λ o. IsReadAs text.now o) }
{
    let tokens = read_tokens(alloc, text)?;
    if is_too_deep(&tokens) {
        return Err(ParseFault::Depth);
    }
    Ok(whole_statement(alloc, &tokens)?)
}

/// The tree of the text of a statement.
///
/// `Syntax` where the text falls into no tokens; else `Depth` where at some token more brackets and blocks are open than
/// `NESTING_LIMIT`; else `Syntax` where the tokens are no statement; `Memory` where memory is wanting.
pub fn parse(alloc: Global, text: &[u8]) -> Result<Stmt, ParseFault>
    // What is answered holds.
    ensures reads { Tells result (λ o. IsReadAs text.now o) }
    // Nothing else does.
    ensures only { (other : Outcome) → IsReadAs text.now other → Tells result (λ o. o ≡ other) }
    ensures well_formed { IfOk result (λ stmt. IsWellFormedCode (code_of stmt)) }
{
    outcome_of(alloc, text)
}
