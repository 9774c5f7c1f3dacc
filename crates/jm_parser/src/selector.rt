ghost use Rattle.std.specs.Prelude.{◌≡◌};
ghost use Rattle.jm_lexer.specs.Faults.{Gives};
ghost use Rattle.jm_tree.specs.Answer as spec;
ghost use Rattle.jm_tree.specs.Input.{Reads};

use crate::cursor::Cursor;
use crate::operand::Operand;
use crate::rules::either;
use jm_base::Cause;
use jm_lexer::{SyntaxFault, Token};
use jm_tree::Tree;
use std::alloc::Global;

/// How many levels a selector may open.
const MAX_LEVELS: usize = 64;

/// The tree, where the tokens end after it and it is a condition.
#[tactic(auto, unfolding(jm_tree::specs::Answer::finished))]
fn finished(tokens: &mut Cursor<'_>, whole: Operand) -> Result<Tree, SyntaxFault>
    ensures { Reads (spec.finished whole.tree whole.at tokens.old) result tokens.new }
{
    if !tokens.is_end() {
        return Err(tokens.stop(Cause::Expected));
    }
    tokens.note(whole.no_truth());
    tokens.settled(whole)
}

#[tactic(auto, unfolding(jm_tree::specs::Answer::whole))]
fn whole(alloc: Global, tokens: &mut Cursor<'_>) -> Result<Tree, SyntaxFault>
    ensures { Reads (spec.whole tokens.old) result tokens.new }
{
    let at = tokens.start();
    let tree = either(alloc, tokens, MAX_LEVELS)?;
    finished(tokens, Operand { tree, at })
}

/// The tree that the tokens of a text of `end` bytes spell as a selector, or the first fault
/// (Jakarta Messaging 3.1, section 3.8.1).
///
/// The first token at which the grammar cannot go on is refused (Expected, at `end` where there are
/// too few; TooDeep; Number where 2^63 stands without its minus); where the tokens are in the grammar,
/// the first operand of a wrong kind, or text after ESCAPE that is not one character (Kind). Memory
/// where a request for memory was refused.
#[tactic(auto, unfolding(jm_tree::specs::Answer::answer))]
pub fn read_selector(alloc: Global, tokens: &[Token], end: usize) -> Result<Tree, SyntaxFault>
    ensures { Gives result (spec.answer tokens.now end) }
{
    let mut tokens = Cursor::new(tokens, end);
    whole(alloc, &mut tokens)
}
