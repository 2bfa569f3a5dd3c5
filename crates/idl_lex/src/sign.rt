ghost use Rattle.std.specs.Prelude.{◌≡◌};
ghost use Rattle.idl_lex.specs.LexSteps.{sign_of};

/// The signs of the interface language (docs/IDL.md, "Tokens").
#[derive(Clone, Copy, Debug, PartialEq, Eq)]
pub enum Sign {
    /// `{`
    OpenBrace,
    /// `}`
    CloseBrace,
    /// `(`
    OpenParen,
    /// `)`
    CloseParen,
    /// `[`
    OpenBracket,
    /// `]`
    CloseBracket,
    /// `<`
    Less,
    /// `>`
    Greater,
    /// `,`
    Comma,
    /// `;`
    Semicolon,
    /// `=`
    Equals,
    /// `::`
    PathSep,
}

impl Sign {
    /// The sign of one byte.
    #[tactic(auto, unfolding(crate::specs::LexSteps::sign_of))]
    pub(crate) fn from_byte(byte: u8) -> Option<Sign>
        ensures { result ≡ sign_of byte }
    {
        match byte {
            b'{' => Some(Sign::OpenBrace),
            b'}' => Some(Sign::CloseBrace),
            b'(' => Some(Sign::OpenParen),
            b')' => Some(Sign::CloseParen),
            b'[' => Some(Sign::OpenBracket),
            b']' => Some(Sign::CloseBracket),
            b'<' => Some(Sign::Less),
            b'>' => Some(Sign::Greater),
            b',' => Some(Sign::Comma),
            b';' => Some(Sign::Semicolon),
            b'=' => Some(Sign::Equals),
            _ => None,
        }
    }
}
