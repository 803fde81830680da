// The kinds of tokens.

/// What a token is. Words and marks that mean the same are one kind: `==` and `=`, `^` and `**`, `&&` and `and`.
#[derive(Clone, Copy, Debug, PartialEq, Eq)]
pub enum TokenKind {
    /// A name that isn't reserved.
    Name,
    /// A number.
    NumericLiteral,
    /// A text in quotes.
    StringLiteral,
    /// `s.t.`, where a statement begins.
    SubjectTo,
    /// `**` and `^`.
    Power,
    /// `..`
    DotDot,
    /// `:=`
    Assign,
    /// `<=`
    AtMost,
    /// `>=`
    AtLeast,
    /// `<>` and `!=`.
    Unequal,
    /// `<-`
    Arrow,
    /// `+`
    Plus,
    /// `-`
    Minus,
    /// `*`
    Times,
    /// `/`
    Over,
    /// `&`, which joins texts.
    Join,
    /// `<`
    Below,
    /// `>`
    Above,
    /// `=` and `==`.
    Equal,
    /// `.`
    Point,
    /// `,`
    Comma,
    /// `:`
    Colon,
    /// `;`
    Semicolon,
    /// `(`
    OpenParenthesis,
    /// `)`
    CloseParenthesis,
    /// `[`
    OpenBracket,
    /// `]`
    CloseBracket,
    /// `{`
    OpenBrace,
    /// `}`
    CloseBrace,
    /// `~`
    Tilde,
    /// `and` and `&&`.
    And,
    /// `by`
    By,
    /// `cross`
    Cross,
    /// `diff`
    Diff,
    /// `div`
    Div,
    /// `else`
    Else,
    /// `if`
    If,
    /// `in`
    In,
    /// `inter`
    Inter,
    /// `less`
    Less,
    /// `mod`
    Mod,
    /// `not` and `!`.
    Not,
    /// `or` and `||`.
    Or,
    /// `symdiff`
    Symdiff,
    /// `then`
    Then,
    /// `union`
    Union,
    /// `within`
    Within,
}
