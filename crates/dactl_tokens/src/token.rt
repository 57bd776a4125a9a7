/// What a token is, by the rules of spelling.
#[derive(Clone, Copy, Debug, PartialEq, Eq)]
pub enum TokenKind {
    /// A name that begins with `A` to `Z` and is no keyword.
    Upper,
    /// A name that begins with `a` to `z`.
    Lower,
    /// Digits, perhaps with `-` directly before them.
    Integer,
    Keyword,
    Sign,
    /// The first 8 bytes of a text of language 2.
    Header,
    /// One byte between two `'`, in language 2.
    Character,
}

/// A token, and where it stands in the text: from the byte `from` up to the byte before `to`.
#[derive(Clone, Copy, Debug, PartialEq, Eq)]
pub struct Token {
    pub kind: TokenKind,
    pub from: u32,
    pub to: u32,
}
