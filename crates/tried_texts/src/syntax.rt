//! Texts of selectors, read as tokens and as trees.

use jm_base::{Cause, Refusal};
use jm_parser::read_selector;
use jm_syntax::{SyntaxFault, Token, Tree, lex, parse};
use std::alloc::Global;
use tried::{Answer, Called, Made, Trial, same, tell};

/// A selector with a node of each kind that holds others.
const TEXT: &str =
    "x + 1 * y > -2 AND (n NOT LIKE 'a!%_b%' ESCAPE '!' OR NOT t IN ('c', 'd')) AND a BETWEEN 1 AND 2 AND z IS NULL";

/// The tokens and the tree of the text.
#[derive(Drop)]
struct Syntax {
    alloc: Global,
    number: usize,
    tokens: Vec<Token>,
    tree: Option<Tree>,
}

fn of_fault(fault: SyntaxFault) -> Refusal {
    match fault.cause {
        Cause::Memory => Refusal::Memory,
        cause => Refusal::InvalidSelector {
            at: fault.at,
            cause,
        },
    }
}

fn tokens(alloc: Global) -> Result<Vec<Token>, Refusal> {
    match lex(alloc, TEXT) {
        Ok(tokens) => Ok(tokens.into_inner()),
        Err(fault) => Err(of_fault(fault)),
    }
}

fn tree(alloc: Global) -> Result<Option<Tree>, Refusal> {
    match parse(alloc, TEXT) {
        Ok(tree) => Ok(tree),
        Err(fault) => Err(of_fault(fault)),
    }
}

fn lexed(alloc: Global) -> Answer {
    match tokens(alloc) {
        Ok(tokens) => Ok(tokens.len() as u64),
        Err(refusal) => Err(refusal),
    }
}

/// 1 where that tree is the one there is.
fn is_tree(tree: &Option<Tree>, found: &Tree) -> u64 {
    match tree {
        Some(tree) => same(tree, found),
        None => 0,
    }
}

fn copied(alloc: Global, tree: &Option<Tree>) -> Answer {
    let Some(tree) = tree else {
        return Ok(0);
    };
    match tree.copy(alloc) {
        Ok(copy) => Ok(same(tree, &copy)),
        Err(_) => Err(Refusal::Memory),
    }
}

impl Syntax {
    fn new(alloc: Global, number: usize) -> Result<Syntax, Refusal> {
        Ok(Syntax {
            alloc,
            number,
            tokens: tokens(alloc)?,
            tree: tree(alloc)?,
        })
    }

    fn read(&self) -> Answer {
        match read_selector(self.alloc, self.tokens.as_slice(), TEXT.len()) {
            Ok(tree) => Ok(is_tree(&self.tree, &tree)),
            Err(fault) => Err(of_fault(fault)),
        }
    }

    fn parsed(&self) -> Answer {
        match tree(self.alloc) {
            Ok(tree) => Ok(same(&self.tree, &tree)),
            Err(refusal) => Err(refusal),
        }
    }
}

impl Trial for Syntax {
    /// How many tokens there are.
    fn state(&self) -> u64 {
        self.tokens.len() as u64
    }

    fn call(&mut self) -> Called {
        match self.number {
            0 => Called {
                name: "jm_lexer lex",
                answer: lexed(self.alloc),
            },
            1 => Called {
                name: "jm_parser read_selector",
                answer: self.read(),
            },
            2 => Called {
                name: "jm_syntax parse",
                answer: self.parsed(),
            },
            3 => Called {
                name: "jm_tree Tree::copy",
                answer: copied(self.alloc, &self.tree),
            },
            _ => Called::NONE,
        }
    }
}

/// Makes the call of that number.
pub fn made(alloc: Global, number: usize) -> Made {
    tell(Syntax::new(alloc, number))
}
