use idl_lex::LexWhy;
use idl_parse::ParseWhy;

/// What is wrong with an interface file.
#[derive(Clone, Copy)]
pub enum FileFault {
    /// It has more bytes than a file may have.
    TooLong,
    /// It has no tokens, from this byte on.
    Lex { at: u32, why: LexWhy },
    /// Its tokens are no file, from this byte on.
    Parse { at: u32, why: ParseWhy },
    /// The include whose text begins at this byte names one file more than an interface may have.
    TooManyFiles { at: u32 },
}
