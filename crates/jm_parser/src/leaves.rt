ghost use Rattle.jm_parser.specs.Leaves as spec;
ghost use Rattle.jm_tree.specs.Input.{Reads};

use crate::cursor::Cursor;
use jm_base::Cause;
use jm_lexer::{Kind, Mark, SyntaxFault};
use jm_tree::{Identifier, Tree};

/// The number 2^63, which only a minus may stand before.
pub(crate) const LIMIT: u64 = 1 << 63;

/// A number below 2^63. Number where it is 2^63.
#[tactic(auto, unfolding(crate::specs::Leaves::number))]
fn number(tokens: &mut Cursor<'_>, value: u64) -> Result<Tree, SyntaxFault>
    ensures { Reads (spec.number value tokens.old) result tokens.new }
{
    if value < LIMIT {
        tokens.pass();
        Ok(Tree::Num(value as i64))
    } else {
        Err(tokens.stop(Cause::Number))
    }
}

/// `number | text | TRUE | FALSE | identifier`.
#[tactic(auto, unfolding(crate::specs::Leaves::leaf))]
pub(crate) fn leaf(tokens: &mut Cursor<'_>) -> Result<Tree, SyntaxFault>
    ensures { Reads (spec.leaf tokens.old) result tokens.new }
{
    match tokens.kind() {
        Some(Kind::Name(name)) => {
            tokens.pass();
            Ok(Tree::Name(Identifier::new(name.copy()?)))
        }
        Some(Kind::Text(text)) => {
            tokens.pass();
            Ok(Tree::Text(text.copy()?))
        }
        Some(Kind::Number(value)) => number(tokens, *value),
        Some(Kind::Mark(Mark::True)) => {
            tokens.pass();
            Ok(Tree::Truth(true))
        }
        Some(Kind::Mark(Mark::False)) => {
            tokens.pass();
            Ok(Tree::Truth(false))
        }
        _ => Err(tokens.stop(Cause::Expected)),
    }
}
