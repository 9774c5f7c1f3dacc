use jm_base::Str;

/// A keyword or a sign of the selector language.
#[derive(Clone, Copy, Debug, PartialEq, Eq)]
pub enum Mark {
    /// `NULL`.
    Null,
    /// `TRUE`.
    True,
    /// `FALSE`.
    False,
    /// `NOT`.
    Not,
    /// `AND`.
    And,
    /// `OR`.
    Or,
    /// `BETWEEN`.
    Between,
    /// `LIKE`.
    Like,
    /// `IN`.
    In,
    /// `IS`.
    Is,
    /// `ESCAPE`.
    Escape,
    /// `=`.
    Equal,
    /// `<>`.
    NotEqual,
    /// `<`.
    Less,
    /// `<=`.
    LessOrEqual,
    /// `>`.
    Greater,
    /// `>=`.
    GreaterOrEqual,
    /// `+`.
    Plus,
    /// `-`.
    Minus,
    /// `*`.
    Times,
    /// `/`.
    Divide,
    /// `(`.
    Open,
    /// `)`.
    Close,
    /// `,`.
    Comma,
}

/// What a token is.
#[derive(Debug, Drop, PartialEq)]
pub enum Kind {
    /// A keyword or a sign.
    Mark(Mark),
    /// An identifier.
    Name(Str),
    /// A whole number, at most 2^63.
    Number(u64),
    /// The content of a text, its doubled quotes undone.
    Text(Str),
}

/// A token of a selector text.
#[derive(Debug, Drop, PartialEq)]
pub struct Token {
    /// What it is.
    pub kind: Kind,
    /// The byte offset at which it begins.
    pub start: usize,
    /// The byte offset after its last byte.
    pub end: usize,
}
