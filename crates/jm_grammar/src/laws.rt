ghost use Rattle.std.specs.Prelude.{◌≡◌, ℕ, List};
ghost use Rattle.jm_lexer.specs.declared.fault.SyntaxFault.{SyntaxFault};
ghost use Rattle.jm_lexer.specs.declared.token.Token.{Token};
ghost use Rattle.jm_tree.specs.declared.tree.Tree.{Tree};
ghost use Rattle.jm_tree.specs.Parse.{fault, IsFaulty};
ghost use Rattle.jm_tree.specs.Spells.{Spells};

/// Two trees never spell one list of tokens.
pub fn law_one_tree()
    ensures { (toks : List Token) (s t : Tree) → Spells s toks → Spells t toks → s ≡ t }
{}

/// A text has a fault exactly where it is over 8,192 bytes, has a lexical fault, or has tokens that
/// no tree spells.
pub fn law_fault()
    ensures some { (text : List ℕ) (e : SyntaxFault) → fault text ≡ Some e → IsFaulty text }
    ensures none { (text : List ℕ) → fault text ≡ None → IsFaulty text → ⊥ }
{}
