//! The tree of a statement's text: tokens, the depth of their nesting, and the grammar over them.
//!
//! Contracts see a statement as the plain tree of `sg_tree`. The layer above uses one contract: `parse` answers the one
//! outcome that the text is read as (`IsReadAs`): a tree, `Depth` or `Syntax`, in that order of refusals: no tokens, too
//! deep, no statement. The grammar (`Grammar`, over that of `sg_expression`) relates tokens and trees; it knows no
//! meaning. Each tree is well formed.
#![tactic(auto)]

mod depth;
mod fault;
pub mod laws;
mod limits;
mod reader;
mod statement;

pub use fault::ParseFault;
pub use limits::NESTING_LIMIT;
pub use reader::parse;
pub use sg_tree::{Arg, Args, Arms, Block, Expr, Exprs, Links, Op, Rel, Stmt};
