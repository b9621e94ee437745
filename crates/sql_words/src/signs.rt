ghost use Rattle.std.specs.Prelude.{◌≡◌};
ghost use Rattle.sql_words.specs.Signs.{sign_spelling};

/// A sign of SQL. `!=` is read as `<>`.
#[derive(Clone, Copy, Debug, PartialEq, Eq)]
pub enum Sign {
    Open,
    Close,
    Comma,
    Dot,
    Semicolon,
    Star,
    Plus,
    Minus,
    Eq,
    Ne,
    Lt,
    Le,
    Gt,
    Ge,
}

impl Sign {
    /// The sign as it is printed.
    pub fn spelling(self) -> &'static [u8]
        ensures { result.now ≡ sign_spelling self }
    {
        match self {
            Sign::Open => b"(",
            Sign::Close => b")",
            Sign::Comma => b",",
            Sign::Dot => b".",
            Sign::Semicolon => b";",
            Sign::Star => b"*",
            Sign::Plus => b"+",
            Sign::Minus => b"-",
            Sign::Eq => b"=",
            Sign::Ne => b"<>",
            Sign::Lt => b"<",
            Sign::Le => b"<=",
            Sign::Gt => b">",
            Sign::Ge => b">=",
        }
    }
}
