ghost use Rattle.std.specs.Prelude.{◌≡◌, ◌≢◌, nat_eq, is_none, IfOk, IfErr, Ok, Some, None};
ghost use Rattle.jm_base.specs.declared.refusal.Refusal.TheVariants.{Memory};
ghost use Rattle.jm_selector.specs.Selectors as spec;
ghost use Rattle.jm_selector.specs.Literals.{literal_of};
ghost use Rattle.jm_selector.specs.Selectors.{matches, refused, selector_read, selector_refusal};
ghost use Rattle.std.specs.Option.{option_copied, option_eq};
ghost use Rattle.std.specs.Cmp.Lexicographic.{pointwise, nat_list_eq_equiv};
ghost use Rattle.std.proofs.Common.{rules};

use crate::literal::{self, Literal};
use jm_base::{Cause, Refusal, Str};
use jm_eval::selects;
use jm_header::Message;
use jm_syntax::{SyntaxFault, Tree, parse};
use std::alloc::{AllocError, Global};
use std::fmt;
use std::marker::Model;

/// A selector as it stands with a subscription or with a queue's consumer, or none: the text as it was handed in, and
/// the tree that it was read as, once. Contracts see the text, which is none where the text holds no token.
pub struct Selector {
    alloc: Global,
    text: Option<Str>,
    tree: Option<Tree>,
}

// (by hand, so that a caller lets a selector go by one call, on each of its ways out)
impl Drop for Selector {
    fn drop(self) {
        let Selector { alloc, text, tree } = self;
        drop(alloc);
        drop(tree);
        drop(text);
    }
}

impl Model for Selector {
    ghost use Rattle.std.specs.Prelude.{◌≡◌, ℕ, List, Option, Ok};
    ghost use Rattle.jm_selector.specs.Selectors.{selector_read, standing};

    ghost Value = { Option (List ℕ) };

    ghost view = { λ s. s.text };

    ghost invariant = { λ s. (selector_read s.text ≡ Ok s.tree) × (standing s.text (Ok s.tree) ≡ s.text) };
}

/// An equal text, or none. `AllocError` where a request for memory was refused.
pub fn copy_text(text: &Option<Str>) -> Result<Option<Str>, AllocError>
    ensures { IfOk result (λ copy. copy ≡ text.now) }
{
    text.clone()
}

fn copy_tree(alloc: Global, tree: &Option<Tree>) -> Result<Option<Tree>, AllocError>
    ensures { IfOk result (λ copy. copy ≡ tree.now) }
{
    match tree {
        None => Ok(None),
        Some(tree) => Ok(Some(tree.copy(alloc)?)),
    }
}

/// The refusal of a selector text with that fault.
fn refusal_of(fault: SyntaxFault) -> Refusal
    ensures { result ≡ refused fault }
{
    match fault.cause {
        Cause::Memory => Refusal::Memory,
        cause => Refusal::InvalidSelector {
            at: fault.at,
            cause,
        },
    }
}

/// The tree of the text, or why it is refused; or `Memory`.
fn tree_of(alloc: Global, text: &Option<Str>) -> Result<Option<Tree>, Refusal>
    ensures found { IfOk result (λ tree. selector_read text.now ≡ Ok tree) }
    ensures refused { IfErr result (λ refusal. refusal ≢ Memory → selector_refusal text.now ≡ Some refusal) }
{
    match text {
        None => Ok(None),
        Some(text) => match parse(alloc, text.as_str()) {
            Ok(tree) => Ok(tree),
            Err(fault) => Err(refusal_of(fault)),
        },
    }
}

/// The text as it stands: none where it holds no token.
fn standing(tree: &Option<Tree>, text: &Option<Str>) -> Result<Option<Str>, AllocError>
    ensures { IfOk result (λ standing. standing ≡ spec.standing text.now (Ok tree.now)) }
{
    match tree {
        None => Ok(None),
        Some(_) => copy_text(text),
    }
}

impl Selector {
    /// No selector. Takes no memory.
    pub fn none(alloc: Global) -> Selector
        ensures { result ≡ None }
    {
        Selector {
            alloc,
            text: None,
            tree: None,
        }
    }

    /// The selector of that text, which is read here; a text that holds no token is none (Jakarta Messaging 3.1,
    /// section 3.8.1). `InvalidSelector` where the text is refused, with its first fault; `Memory` where a request
    /// for memory was refused, which may come in place of it.
    pub fn read(alloc: Global, text: &Option<Str>) -> Result<Selector, Refusal>
        ensures read { IfOk result (λ selector. selector ≡ spec.standing text.now (selector_read text.now)) }
        ensures valid { IfOk result (λ _. selector_refusal text.now ≡ None) }
        ensures refused { IfErr result (λ refusal. refusal ≢ Memory → selector_refusal text.now ≡ Some refusal) }
    {
        let tree = tree_of(alloc, text)?;
        let text = standing(&tree, text)?;
        Ok(Selector { alloc, text, tree })
    }

    /// An equal selector, which is not read again. `AllocError` where a request for memory was refused.
    pub fn copy(&self) -> Result<Selector, AllocError>
        ensures { IfOk result (λ copy. copy ≡ self.now) }
    {
        let text = copy_text(&self.text)?;
        let tree = copy_tree(self.alloc, &self.tree)?;
        Ok(Selector {
            alloc: self.alloc,
            text,
            tree,
        })
    }

    /// Lets it go: there is none from then on. Takes no memory.
    pub fn clear(&mut self)
        ensures { self.new ≡ None }
    {
        *self = Selector::none(self.alloc);
    }

    /// Whether there is none: it selects every message.
    pub fn is_none(&self) -> bool
        ensures { result ≡ is_none self.now }
    {
        self.text.is_none()
    }

    /// Its text, as it was handed in, and none where there is none: a text that stands holds a token. Takes no memory.
    pub fn text(&self) -> Option<&str>
        ensures text { option_copied result ≡ self.now }
        ensures stands { spec.standing self.now (selector_read self.now) ≡ self.now }
    {
        match &self.text {
            None => None,
            Some(text) => Some(text.as_str()),
        }
    }

    /// The literal that it asks a value of a message to be equal to: that of an equality between a literal and a name,
    /// which is a property's, JMSCorrelationID or JMSType, or of the first such equality that an AND joins. None of
    /// every other selector. `AllocError` where a request for memory was refused, which is made for a text alone.
    pub fn literal(&self) -> Result<Option<Literal>, AllocError>
        ensures { IfOk result (λ literal. literal ≡ literal_of self.now) }
    {
        match &self.tree {
            None => Ok(None),
            Some(tree) => literal::literal_of(self.alloc, tree),
        }
    }

    /// Whether it is TRUE for the message, or there is none (Jakarta Messaging 3.1, section 3.8.1). Takes no memory.
    pub fn selects(&self, message: &Message) -> bool
        ensures { result ≡ matches self.now message.now }
    {
        selects(&self.tree, message)
    }
}

impl Clone for Selector {
    ghost is_clone = { λ a b. b ≡ a };

    fn clone(&self) -> Result<Selector, AllocError> {
        self.copy()
    }
}

impl PartialEq for Selector {
    ghost eq = { option_eq (pointwise nat_eq) };

    ghost laws = { Prim.search rules };

    fn eq(&self, other: &Selector) -> bool {
        self.text == other.text
    }
}

impl fmt::Debug for Selector {
    fn fmt<W: fmt::Write>(&self, f: &mut fmt::Formatter<W>) -> fmt::Result {
        fmt::Debug::fmt(&self.text, f)
    }
}
