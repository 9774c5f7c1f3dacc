ghost use Rattle.std.specs.Prelude.{◌≡◌, ◌≢◌, ◌+◌, length, true, false, MatchResult};
ghost use Rattle.std.specs.Option.{option_copied};
ghost use Rattle.jm_lexer.specs.Faults as faults;
ghost use Rattle.jm_tree.specs.Input as spec;
ghost use Rattle.jm_tree.specs.Operators as operators;
ghost use Rattle.jm_tree.specs.Answer as answer;
ghost use Rattle.jm_tree.specs.Input.{Reads};

use crate::operand::Operand;
use jm_base::{Cause, Str};
use jm_lexer::{Kind, Mark, SyntaxFault, Token};
use jm_tree::{Additive, Comparison, Multiplicative, Tree};
use std::marker::Model;

/// The tokens that are left, the length of the text, and the place of the first operand of a wrong
/// kind. Reading goes on past such an operand, so that faults of the grammar come first.
#[derive(Drop)]
pub(crate) struct Cursor<'a> {
    tokens: &'a [Token],
    end: usize,
    wrong: Option<usize>,
}

impl<'a> Model for Cursor<'a> {
    ghost use Rattle.jm_tree.specs.Input.{Input};

    ghost Value = { Input };

    ghost view = { λ c. record { tokens = c.tokens.now; end = c.end; wrong = c.wrong } };
}

#[tactic(auto, unfolding(jm_tree::specs::Input::same_mark))]
fn same_mark(a: Mark, b: Mark) -> bool
    ensures { result ≡ spec.same_mark a b }
{
    a == b
}

fn is_mark(kind: Option<&Kind>, mark: Mark) -> bool
    ensures { result ≡ spec.is_mark mark (option_copied kind.entry) }
{
    match kind {
        Some(Kind::Mark(found)) => same_mark(*found, mark),
        _ => false,
    }
}

fn additive_of(mark: Mark) -> Option<Additive>
    ensures { result ≡ operators.additive_of mark }
{
    match mark {
        Mark::Plus => Some(Additive::Plus),
        Mark::Minus => Some(Additive::Minus),
        _ => None,
    }
}

fn multiplicative_of(mark: Mark) -> Option<Multiplicative>
    ensures { result ≡ operators.multiplicative_of mark }
{
    match mark {
        Mark::Times => Some(Multiplicative::Times),
        Mark::Divide => Some(Multiplicative::Divide),
        _ => None,
    }
}

/// The comparison that the mark stands for, if it does.
pub(crate) fn comparison_of(mark: Mark) -> Option<Comparison>
    ensures { result ≡ operators.comparison_of mark }
{
    match mark {
        Mark::Equal => Some(Comparison::Equal),
        Mark::NotEqual => Some(Comparison::NotEqual),
        Mark::Less => Some(Comparison::Less),
        Mark::LessOrEqual => Some(Comparison::LessOrEqual),
        Mark::Greater => Some(Comparison::Greater),
        Mark::GreaterOrEqual => Some(Comparison::GreaterOrEqual),
        _ => None,
    }
}

impl<'a> Cursor<'a> {
    pub(crate) fn new(tokens: &'a [Token], end: usize) -> Cursor<'a>
        ensures { result ≡ spec.start_of tokens.now end }
    {
        Cursor {
            tokens,
            end,
            wrong: None,
        }
    }

    /// The offset of the next token, or the length of the text.
    #[tactic(auto, unfolding(jm_tree::specs::Input::start))]
    pub(crate) fn start(&self) -> usize
        ensures { result ≡ spec.start self.now }
    {
        match self.tokens {
            [] => self.end,
            [token, ..] => token.start,
        }
    }

    #[tactic(auto, unfolding(jm_tree::specs::Input::kind))]
    pub(crate) fn kind(&self) -> Option<&'a Kind>
        ensures { option_copied result ≡ spec.kind self.now }
    {
        match self.tokens {
            [] => None,
            [token, ..] => Some(&token.kind),
        }
    }

    #[tactic(auto, unfolding(jm_tree::specs::Input::left))]
    pub(crate) fn left(&self) -> usize
        ensures { result ≡ spec.left self.now }
    {
        self.tokens.len()
    }

    /// Goes past a token, if there is one.
    #[tactic(auto, unfolding(jm_tree::specs::Input::next))]
    pub(crate) fn pass(&mut self)
        ensures { self.new ≡ spec.next self.old }
    {
        if let [_, rest @ ..] = self.tokens {
            self.tokens = rest;
        }
    }

    /// The fault of this cause at the next token.
    pub(crate) fn stop(&self, cause: Cause) -> SyntaxFault
        ensures { result ≡ faults.fault_at (spec.start self.now) cause }
    {
        SyntaxFault {
            at: self.start(),
            cause,
        }
    }

    #[tactic(auto, unfolding(jm_tree::specs::Input::sees))]
    pub(crate) fn sees(&self, mark: Mark) -> bool
        ensures { result ≡ spec.sees mark self.now }
    {
        is_mark(self.kind(), mark)
    }

    /// Goes past the mark, if it stands next.
    #[tactic(auto, unfolding(jm_tree::specs::Input::after))]
    pub(crate) fn eat(&mut self, mark: Mark) -> bool
        ensures found { result ≡ spec.sees mark self.old }
        ensures after { self.new ≡ spec.after mark self.old }
    {
        let found = self.sees(mark);
        if found {
            self.pass();
        }
        found
    }

    /// Goes past the mark. Expected where it does not stand next.
    #[tactic(auto, unfolding(jm_tree::specs::Input::expect))]
    pub(crate) fn expect(&mut self, mark: Mark) -> Result<(), SyntaxFault>
        ensures { Reads (spec.expect mark self.old) result self.new }
    {
        if self.sees(mark) {
            self.pass();
            Ok(())
        } else {
            Err(self.stop(Cause::Expected))
        }
    }

    #[tactic(auto, unfolding(jm_tree::specs::Input::operator_at, jm_tree::specs::Input::after_operator))]
    pub(crate) fn eat_additive(&mut self) -> Option<Additive>
        ensures found { result ≡ spec.operator_at operators.additive_of self.old }
        ensures after { self.new ≡ spec.after_operator operators.additive_of self.old }
    {
        let found = match self.kind() {
            Some(Kind::Mark(mark)) => additive_of(*mark),
            _ => None,
        };
        if found.is_some() {
            self.pass();
        }
        found
    }

    #[tactic(auto, unfolding(jm_tree::specs::Input::operator_at, jm_tree::specs::Input::after_operator))]
    pub(crate) fn eat_multiplicative(&mut self) -> Option<Multiplicative>
        ensures found { result ≡ spec.operator_at operators.multiplicative_of self.old }
        ensures after { self.new ≡ spec.after_operator operators.multiplicative_of self.old }
    {
        let found = match self.kind() {
            Some(Kind::Mark(mark)) => multiplicative_of(*mark),
            _ => None,
        };
        if found.is_some() {
            self.pass();
        }
        found
    }

    /// The content of a text. Expected where none stands next.
    #[tactic(auto, unfolding(jm_tree::specs::Input::text))]
    pub(crate) fn text(&mut self) -> Result<Str, SyntaxFault>
        ensures { Reads (spec.text self.old) result self.new }
    {
        match self.kind() {
            Some(Kind::Text(text)) => {
                self.pass();
                Ok(text.copy()?)
            }
            _ => Err(self.stop(Cause::Expected)),
        }
    }

    /// Notes the place of an operand of a wrong kind; the first one is kept.
    #[tactic(auto, unfolding(jm_tree::specs::Input::noted))]
    pub(crate) fn note(&mut self, wrong: Option<usize>)
        ensures { self.new ≡ spec.noted wrong self.old }
    {
        if self.wrong.is_none() {
            self.wrong = wrong;
        }
    }

    #[tactic(auto, unfolding(jm_tree::specs::Input::is_end))]
    pub(crate) fn is_end(&self) -> bool
        ensures { result ≡ spec.is_end self.now }
    {
        match self.tokens {
            [] => true,
            _ => false,
        }
    }

    /// The tree. Kind where an operand of a wrong kind was noted.
    #[tactic(auto, unfolding(jm_tree::specs::Answer::settled))]
    pub(crate) fn settled(&self, whole: Operand) -> Result<Tree, SyntaxFault>
        ensures { Reads (answer.settled whole.tree self.now) result self.now }
    {
        match self.wrong {
            None => Ok(whole.into_tree()),
            Some(at) => Err(SyntaxFault {
                at,
                cause: Cause::Kind,
            }),
        }
    }
}
