ghost use Rattle.std.specs.Prelude.{◌≡◌, ◌≤◌, List, IfOk, length};
ghost use Rattle.jm_lexer.specs.Faults.{Gives};
ghost use Rattle.jm_lexer.specs.Lexes.{Lexes};
ghost use Rattle.jm_lexer.specs.declared.fault.SyntaxFault.{SyntaxFault as Fault};
ghost use Rattle.jm_tree.specs.Parse as spec;
ghost use Rattle.jm_tree.specs.Parse.{Finds, Refuses};
ghost use Rattle.jm_tree.specs.Spells.{Spells};
ghost use Rattle.jm_lexer.specs.declared.token.Token.{Token};
ghost use Rattle.jm_tree.specs.declared.tree.Tree.{Tree};

use jm_base::Cause;
use jm_lexer::{SyntaxFault, lex};
use jm_parser::read_selector;
use jm_tree::Tree;
use std::alloc::Global;

/// How many bytes a selector text may have.
const MAX_LENGTH: usize = 8192;

#[tactic(auto, using(jm_lexer::proofs::Lexed::lexed_tokens), unfolding(jm_tree::specs::Parse::parsed))]
fn parsed(alloc: Global, text: &str) -> Result<Option<Tree>, SyntaxFault>
    ensures { Gives result (spec.parsed text.now) }
{
    if text.len() > MAX_LENGTH {
        return Err(SyntaxFault {
            at: MAX_LENGTH,
            cause: Cause::TooLong,
        });
    }
    let tokens = lex(alloc, text)?;
    match tokens.as_slice() {
        [] => Ok(None),
        tokens => Ok(Some(read_selector(alloc, tokens, text.len())?)),
    }
}

/// The tree of a selector text (Jakarta Messaging 3.1, section 3.8.1), or None where the text holds
/// no token.
///
/// A refused text gives the first fault: TooLong at 8192 (ours, as is the limit of 64 levels), then
/// the first lexical fault of the whole text (Token, Number, Floating), then the first token at which
/// the grammar cannot go on (Expected; TooDeep; Number where 2^63 stands without its minus), and where
/// the text is in the grammar the first operand of a wrong kind, or text after ESCAPE that is not one
/// character (Kind), inner operands before outer ones, and the left operand of LIKE before its ESCAPE
/// text. Memory where a request for memory was refused.
pub fn parse(alloc: Global, text: &str) -> Result<Option<Tree>, SyntaxFault>
    // Which tree, or which fault.
    ensures exact { Gives result (spec.parsed text.now) }
    // What is found is nothing where there is no token, else the tree that the tokens spell.
    ensures found { IfOk result (Finds text.now) }
    // What is spelled is found, unless memory runs out.
    ensures only { (toks : List Token) (tree : Tree) → length text.now ≤ spec.length_max → Lexes text.now (Ok toks) →
        Spells tree toks → Gives result (Ok (Some tree)) }
    // A lexical fault is told, unless memory runs out.
    ensures lexical { (fault : Fault) → length text.now ≤ spec.length_max → Lexes text.now (Err fault) → Gives result (Err fault) }
    // What is refused is too long, has a lexical fault, or has tokens that no tree spells, unless memory runs out.
    ensures refused { Refuses text.now result }
{
    parsed(alloc, text)
}
