ghost use Rattle.std.specs.Prelude.{◌≡◌, ◌≢◌, MatchOption};
ghost use Rattle.idl_lex.specs.LexSteps.{keyword_among, keyword_of};
ghost use Rattle.idl_lex.specs.Spellings.{keyword_text};
ghost use Rattle.idl_lex.specs.declared.keyword.Keyword.{Keyword as AKeyword};

/// The words of the interface language, which are no identifiers (docs/IDL.md, "Tokens").
#[derive(Clone, Copy, Debug, PartialEq, Eq)]
pub enum Keyword {
    Void,
    Struct,
    Bool,
    Byte,
    Short,
    Int,
    Long,
    Float,
    Double,
    String,
    Vector,
    Map,
    Key,
    Routekey,
    Module,
    Interface,
    Out,
    Require,
    Optional,
    False,
    True,
    Enum,
    Const,
    Unsigned,
}

/// All keywords.
const KEYWORDS: [Keyword; 24] = [
    Keyword::Void,
    Keyword::Struct,
    Keyword::Bool,
    Keyword::Byte,
    Keyword::Short,
    Keyword::Int,
    Keyword::Long,
    Keyword::Float,
    Keyword::Double,
    Keyword::String,
    Keyword::Vector,
    Keyword::Map,
    Keyword::Key,
    Keyword::Routekey,
    Keyword::Module,
    Keyword::Interface,
    Keyword::Out,
    Keyword::Require,
    Keyword::Optional,
    Keyword::False,
    Keyword::True,
    Keyword::Enum,
    Keyword::Const,
    Keyword::Unsigned,
];

/// The keyword among these that is written so.
fn keyword_among(mut keywords: &[Keyword], word: &[u8]) -> Option<Keyword>
    ensures { result ≡ keyword_among keywords.entry.now word.now }
{
    while let [keyword, rest @ ..] = keywords {
        if keyword.text() == word {
            return Some(*keyword);
        }
        keywords = rest;
    }
    None
}

/// The keyword that is written so, for the lexer.
#[tactic(auto, unfolding(crate::specs::LexSteps::keyword_of))]
pub(crate) fn keyword_of(word: &[u8]) -> Option<Keyword>
    ensures { result ≡ keyword_of word.now }
{
    keyword_among(&KEYWORDS, word)
}

impl Keyword {
    /// How the keyword is written.
    pub fn text(self) -> &'static [u8]
        ensures { result.now ≡ keyword_text self }
    {
        match self {
            Keyword::Void => b"void",
            Keyword::Struct => b"struct",
            Keyword::Bool => b"bool",
            Keyword::Byte => b"byte",
            Keyword::Short => b"short",
            Keyword::Int => b"int",
            Keyword::Long => b"long",
            Keyword::Float => b"float",
            Keyword::Double => b"double",
            Keyword::String => b"string",
            Keyword::Vector => b"vector",
            Keyword::Map => b"map",
            Keyword::Key => b"key",
            Keyword::Routekey => b"routekey",
            Keyword::Module => b"module",
            Keyword::Interface => b"interface",
            Keyword::Out => b"out",
            Keyword::Require => b"require",
            Keyword::Optional => b"optional",
            Keyword::False => b"false",
            Keyword::True => b"true",
            Keyword::Enum => b"enum",
            Keyword::Const => b"const",
            Keyword::Unsigned => b"unsigned",
        }
    }

    /// The keyword that is written so.
    #[tactic(auto, using(crate::proofs::Lexing::Words::WordLaws::keyword_spelled))]
    pub fn from_word(word: &[u8]) -> Option<Keyword>
        ensures { MatchOption result ((keyword : AKeyword) → word.now ≢ keyword_text keyword)
            (λ keyword. word.now ≡ keyword_text keyword) }
    {
        keyword_of(word)
    }
}
