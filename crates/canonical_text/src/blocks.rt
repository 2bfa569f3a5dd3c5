//! Blocks of modules, and the whole text.

ghost use Rattle.std.specs.Prelude.{◌≡◌, ◌++◌, None, IfOk, OnOk};
ghost use Rattle.std.specs.Option.{option_map};
ghost use Rattle.tars_model.specs.Schemas.{IsSchema};
ghost use Rattle.canonical_text.specs.Canonical.{block_start, block_end, turn, blocks, canonical};

use crate::decls::{home_of, put_decl};
use std::alloc::{AllocError, Global};
use tars_model::Schema;
use text_buffer::TextBuffer;

#[tactic(auto, unfolding(crate::specs::Canonical::block_start))]
fn start_block(text: &mut TextBuffer, home: &[u8]) -> Result<(), AllocError>
    ensures { OnOk result (text.new ≡ text.old ++ block_start home.now) }
{
    text.word("module ")?;
    text.put(home)?;
    text.word("\n{\n")
}

fn end_block(text: &mut TextBuffer, block: &Option<&[u8]>) -> Result<(), AllocError>
    ensures { OnOk result (text.new ≡ text.old ++ block_end (option_map (λ b. b.now) block.now)) }
{
    match block {
        Some(_) => text.word("};\n"),
        None => Ok(()),
    }
}

/// Goes from the open block to that of the next declaration's module.
#[tactic(auto, unfolding(crate::specs::Canonical::turn))]
fn turn(text: &mut TextBuffer, block: &Option<&[u8]>, home: &[u8]) -> Result<(), AllocError>
    ensures { OnOk result (text.new ≡ text.old ++ turn (option_map (λ b. b.now) block.now) home.now) }
{
    match block {
        None => start_block(text, home),
        Some(block) if *block == home => Ok(()),
        Some(_) => {
            text.word("};\n")?;
            start_block(text, home)
        }
    }
}

#[tactic(auto, unfolding(crate::specs::Canonical::blocks))]
fn put_blocks(text: &mut TextBuffer, schema: &Schema) -> Result<(), AllocError>
    ensures text { OnOk result (text.new ≡ text.old ++ blocks schema.now None schema.now.order) }
    ensures rules { IsSchema schema.now }
{
    let mut block = None;
    for decl in schema.order() {
        let home = home_of(schema, *decl);
        turn(text, &block, home)?;
        put_decl(text, schema, *decl)?;
        block = Some(home);
    }
    end_block(text, &block)
}

/// The canonical text of what a schema declares.
#[tactic(auto, unfolding(crate::specs::Canonical::canonical))]
pub fn print(alloc: Global, schema: &Schema) -> Result<Vec<u8>, AllocError>
    ensures text { IfOk result (λ text. text.items ≡ canonical schema.now) }
    // Whatever comes of it, the schema keeps the rules.
    ensures rules { IsSchema schema.now }
{
    let mut text = TextBuffer::new(alloc);
    put_blocks(&mut text, schema)?;
    Ok(text.into_bytes())
}
