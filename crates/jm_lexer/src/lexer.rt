ghost use Rattle.std.specs.Prelude.{◌≡◌, ◌≢◌, ◌+◌, ◌<◌, ◌≤◌, List, Result, length, take, drop, IfSome, IfOk, MatchOption, MatchResult, true, false};
ghost use Rattle.std.specs.Str.{IsUtf8};
ghost use Rattle.jm_lexer.specs.Lex as spec;
ghost use Rattle.jm_lexer.specs.Faults.{Gives};
ghost use Rattle.jm_lexer.specs.Lexes.{Answers, Lexes};
ghost use Rattle.jm_lexer.specs.declared.fault.SyntaxFault.{SyntaxFault};
ghost use Rattle.jm_lexer.specs.declared.token.Token.{Token};

use crate::fault::SyntaxFault;
use crate::token::{Kind, Token};
use crate::words::{
    begins_number, is_blank, keyword_of, number_len, number_of, one_sign, two_sign, word_len,
};
use jm_base::{Cause, List, Str};
use jm_identifier::is_letter;
use std::alloc::{AllocError, Global};

/// The text of these bytes.
fn text_of(alloc: Global, bytes: &[u8]) -> Result<Str, AllocError>
    requires { IsUtf8 bytes.now }
    ensures { IfOk result (λ text. text ≡ bytes.now) }
{
    Ok(Str::new(String::from_utf8_lossy(alloc, bytes)?))
}

/// The content of a text whose opening quote was read, its doubled quotes undone, and its length with
/// the closing quote. None where it is not closed.
#[tactic(auto, unfolding(crate::specs::Lex::content))]
fn content(alloc: Global, z: &[u8]) -> Result<Option<(Vec<u8>, usize)>, AllocError>
    ensures value { IfOk result (λ found. MatchOption found (spec.content z.now ≡ None) (λ f. spec.content z.now ≡ Some (f.0.items, f.1))) }
    ensures within { IfOk result (λ found. IfSome found (λ f. f.1 ≤ length z.now)) }
{
    let mut found = Vec::new(alloc);
    let mut closed = false;
    for (len, b) in z.iter().enumerate() {
        if closed && *b != b'\'' {
            return Ok(Some((found, len)));
        }
        if closed || *b != b'\'' {
            found.push(*b)?;
        }
        closed = !closed && *b == b'\'';
    }
    if closed {
        Ok(Some((found, z.len())))
    } else {
        Ok(None)
    }
}

/// A text whose opening quote was read.
#[tactic(auto, using(crate::proofs::Contents::content_utf8))]
fn text_front(alloc: Global, z: &[u8], at: usize) -> Result<(Kind, usize), SyntaxFault>
    requires { IsUtf8 z.now }
    ensures { Gives result (spec.text_by at (spec.content z.now)) }
{
    match content(alloc, z)? {
        None => Err(SyntaxFault {
            at,
            cause: Cause::Token,
        }),
        Some((content, len)) => {
            let text = text_of(alloc, content.as_slice())?;
            Ok((Kind::Text(text), len + 1))
        }
    }
}

/// A keyword or an identifier.
#[tactic(auto, using(crate::proofs::Contents::word_utf8), unfolding(crate::specs::Lex::word_front))]
fn word_front(alloc: Global, z: &[u8]) -> Result<(Kind, usize), SyntaxFault>
    ensures { Gives result (spec.word_front z.now) }
{
    let len = word_len(z);
    let word = &z[..len];
    match keyword_of(word) {
        Some(mark) => Ok((Kind::Mark(mark), len)),
        None => Ok((Kind::Name(text_of(alloc, word)?), len)),
    }
}

/// A number. Number or Floating where the word is none.
#[tactic(auto, unfolding(crate::specs::Lex::number_front))]
fn number_front(z: &[u8], at: usize) -> Result<(Kind, usize), SyntaxFault>
    ensures { result ≡ spec.number_front at z.now }
{
    let len = number_len(z);
    match number_of(&z[..len]) {
        Ok(value) => Ok((Kind::Number(value), len)),
        Err(cause) => Err(SyntaxFault { at, cause }),
    }
}

/// A sign, the longest one that begins here.
fn sign_front(z: &[u8], at: usize) -> Result<(Kind, usize), SyntaxFault>
    ensures { result ≡ spec.sign_front at z.now }
{
    if let [b, c, ..] = z {
        if let Some(mark) = two_sign(*b, *c) {
            return Ok((Kind::Mark(mark), 2));
        }
    }
    if let [b, ..] = z {
        if let Some(mark) = one_sign(*b) {
            return Ok((Kind::Mark(mark), 1));
        }
    }
    Err(SyntaxFault {
        at,
        cause: Cause::Token,
    })
}

/// The longest token at the front, and its length.
#[tactic(auto, unfolding(crate::specs::Lex::front))]
fn front(alloc: Global, z: &[u8], at: usize) -> Result<(Kind, usize), SyntaxFault>
    requires { IsUtf8 z.now }
    ensures { Gives result (spec.front at z.now) }
{
    let [b, rest @ ..] = z else {
        return Err(SyntaxFault {
            at,
            cause: Cause::Token,
        });
    };
    if *b == b'\'' {
        return text_front(alloc, rest, at);
    }
    if is_letter(*b) {
        return word_front(alloc, z);
    }
    if begins_number(z) {
        return number_front(z, at);
    }
    sign_front(z, at)
}

/// The tokens of the text by turns, or the first fault.
#[tactic(auto, unfolding(crate::specs::Lex::tokens, crate::specs::Lex::lex_from))]
fn tokens_of(alloc: Global, text: &str) -> Result<List<Token>, SyntaxFault>
    ensures { Gives result (spec.tokens text.now) }
{
    let bytes = text.as_bytes();
    let mut found = List::new(Vec::new(alloc));
    let mut at = 0;
    for _turn in 0..bytes.len() {
        if at == bytes.len() {
            return Ok(found);
        }
        if is_blank(bytes[at]) {
            at += 1;
            continue;
        }
        let (kind, len) = front(alloc, &bytes[at..], at)?;
        let end = at + len;
        found.push(Token {
            kind,
            start: at,
            end,
        })?;
        at = end;
    }
    Ok(found)
}

/// The tokens of a selector text of any length (Jakarta Messaging 3.1, section 3.8.1), at byte
/// offsets, or its first lexical fault, at the offset where its word begins.
///
/// Token is a text that is not closed, or a character with which no token begins. A word that begins
/// like a number and is none is Floating where it holds a `.` or is decimal digits directly followed
/// by one of `e E f F d D`, else Number; so is a value above 2^63 (ours). Memory where a request for
/// memory was refused.
pub fn lex(alloc: Global, text: &str) -> Result<List<Token>, SyntaxFault>
    // The text is whitespace and the words of these tokens in turn, each the longest at its place; a
    // fault stands at the first longest word that is none.
    ensures lexed { Answers text.now result }
    // A text has such tokens or such a fault,
    ensures some { Lexes text.now (spec.tokens text.now) }
    // and never two of these.
    ensures only { (found : Result (List Token) SyntaxFault) → Lexes text.now found → found ≡ spec.tokens text.now }
{
    tokens_of(alloc, text)
}
