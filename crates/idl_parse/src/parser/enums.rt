ghost use Rattle.std.specs.Prelude.{◌≡◌};
ghost use Rattle.idl_parse.specs.ReadSteps.{Reads, item_at, item_comma_at};

use super::halt::Halt;
use super::items::Item;
use super::tokens::Tokens;
use crate::tree::EnumItem;
use idl_lex::{Kind, Sign};
use std::alloc::Global;

/// `ident [ = number ]`
#[tactic(auto, unfolding(crate::specs::ReadSteps::item_at, crate::specs::ReadSteps::item_number_at))]
fn item(tokens: &mut Tokens<'_>) -> Result<EnumItem, Halt>
    ensures { Reads result tokens.new (item_at tokens.old) }
{
    let name = tokens.span(Kind::Ident)?;
    let number = if tokens.eat(Kind::Sign(Sign::Equals)) {
        Some(tokens.span(Kind::Number)?)
    } else {
        None
    };
    Ok(EnumItem { name, number })
}

impl Item for EnumItem {
    ghost reading = { item_comma_at };

    /// An item with the comma after it, which may be left out before the `}`.
    #[tactic(auto, unfolding(crate::specs::ReadSteps::item_comma_at))]
    fn read(_alloc: Global, tokens: &mut Tokens<'_>) -> Result<EnumItem, Halt> {
        let item = item(tokens)?;
        if !tokens.sees(Kind::Sign(Sign::CloseBrace)) {
            tokens.expect(Kind::Sign(Sign::Comma))?;
        }
        Ok(item)
    }
}
