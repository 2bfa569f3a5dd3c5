//! Items one after the other, up to a closing sign.

ghost use Rattle.std.specs.Prelude.{◌≡◌, List as Listed};
ghost use Rattle.idl_parse.specs.ReadSteps.{Read, Reads, Shrinks, until_at, with_prefix};
ghost use Rattle.idl_lex.specs.declared.token.Token.{Token as Found};

use super::halt::Halt;
use super::tokens::Tokens;
use idl_lex::{Kind, Sign};
use std::alloc::Global;
use tars_model::List;

/// What is read one after the other.
pub(super) trait Item: Drop {
    ghost reading: { Listed Found → Read Self };

    fn read(alloc: Global, tokens: &mut Tokens<'_>) -> Result<Self, Halt>
        ensures { Reads result tokens.new (reading tokens.old) };
}

/// The items up to the closing sign, each of which takes a token, after those that were read before.
pub(super) fn until_after<T: Item>(
    alloc: Global,
    close: Sign,
    before: List<T>,
    tokens: &mut Tokens<'_>,
) -> Result<List<T>, Halt>
    requires { Shrinks T.reading }
    ensures { Reads result tokens.new (with_prefix before (until_at close T.reading tokens.old)) }
{
    let mut items = before;
    'items: while !tokens.sees(Kind::Sign(close)) {
        let item = T::read(alloc, tokens)?;
        items.push(item)?;
    }
    tokens.expect(Kind::Sign(close))?;
    Ok(items)
}

/// The items up to the closing sign, each of which takes a token.
#[tactic(auto, using(crate::proofs::Parsing::Repeating::LoopSteps::nothing_before))]
pub(super) fn until<T: Item>(
    alloc: Global,
    close: Sign,
    tokens: &mut Tokens<'_>,
) -> Result<List<T>, Halt>
    requires { Shrinks T.reading }
    ensures { Reads result tokens.new (until_at close T.reading tokens.old) }
{
    until_after(alloc, close, List::new(alloc), tokens)
}
