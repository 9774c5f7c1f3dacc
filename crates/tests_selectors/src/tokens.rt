//! Texts and their tokens, or the first fault.

use crate::told::is_text;
use jm_lexer::{Kind, Token, lex};
use std::alloc::{AllocError, Global};

fn kind_shown(alloc: Global, kind: &Kind) -> Result<String, AllocError> {
    match kind {
        Kind::Mark(mark) => format!(in alloc; "{mark:?}"),
        Kind::Name(name) => format!(in alloc; "name {name:?}"),
        Kind::Number(number) => format!(in alloc; "{number}"),
        Kind::Text(text) => format!(in alloc; "text {text:?}"),
    }
}

fn shown(alloc: Global, token: &Token) -> Result<String, AllocError> {
    let (start, end) = (token.start, token.end);
    let kind = kind_shown(alloc, &token.kind)?;
    format!(in alloc; "{kind} {start}..{end}, ")
}

fn all_shown(alloc: Global, tokens: &[Token]) -> Result<String, AllocError> {
    let mut all = String::new(alloc);
    for token in tokens {
        all.push_str(shown(alloc, token)?.as_str())?;
    }
    Ok(all)
}

/// The tokens of the text, each with its kind and the offsets of its ends, or the cause and the offset of its fault.
fn lexed(alloc: Global, text: &str) -> Result<String, AllocError> {
    match lex(alloc, text) {
        Ok(tokens) => all_shown(alloc, tokens.as_slice()),
        Err(fault) => {
            let (cause, at) = (fault.cause, fault.at);
            format!(in alloc; "{cause} at {at}")
        }
    }
}

/// Texts, and their tokens or their fault.
static TEXTS: [(&str, &str); 13] = [
    (
        "a<>'it''s \u{e9}' nOt",
        "name \"a\" 0..1, NotEqual 1..3, text \"it's \u{e9}\" 3..13, Not 14..17, ",
    ),
    (
        "Null TRUE false and oR between LIKE in is escape",
        "Null 0..4, True 5..9, False 10..15, And 16..19, Or 20..22, Between 23..30, Like 31..35, In 36..38, Is 39..41, Escape 42..48, ",
    ),
    (
        "= <> < <= > >= + - * / ( ) ,",
        "Equal 0..1, NotEqual 2..4, Less 5..6, LessOrEqual 7..9, Greater 10..11, GreaterOrEqual 12..14, Plus 15..16, Minus 17..18, Times 19..20, Divide 21..22, Open 23..24, Close 25..26, Comma 27..28, ",
    ),
    ("", ""),
    ("''''", "text \"'\" 0..4, "),
    ("nullable", "name \"nullable\" 0..8, "),
    ("0 12L 010 0x1f", "0 0..1, 12 2..5, 8 6..9, 31 10..14, "),
    ("9223372036854775808", "9223372036854775808 0..19, "),
    (" 9223372036854775809", "Number at 1"),
    ("x 09", "Number at 2"),
    ("= .5", "Floating at 2"),
    ("7E3", "Floating at 0"),
    ("x # 'a''", "Token at 2"),
];

#[test]
fn tokens_of_texts(rt: HostRuntime) {
    for (text, wanted) in &TEXTS {
        is_text(&rt, wanted, lexed(rt.alloc(), text));
    }
}
