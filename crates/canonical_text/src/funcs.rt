//! The lines of interfaces.

ghost use Rattle.std.specs.Prelude.{◌≡◌, ◌++◌, codes, OnOk};
ghost use Rattle.std.specs.List.{flat_map};
ghost use Rattle.canonical_text.specs.Canonical.{direction_word, param_text, params_text, return_text, func_line};

use crate::types::put_type;
use std::alloc::AllocError;
use tars_model::{FuncDesc, Param, Schema, Ty};
use text_buffer::TextBuffer;

fn direction_word(out: bool) -> &'static str
    ensures { result.now ≡ direction_word out }
{
    if out { "out " } else { "" }
}

#[tactic(auto, unfolding(crate::specs::Canonical::param_text))]
fn put_param(
    text: &mut TextBuffer,
    schema: &Schema,
    home: &[u8],
    param: &Param,
) -> Result<(), AllocError>
    ensures { OnOk result (text.new ≡ text.old ++ param_text schema.now home.now param.now) }
{
    text.word(direction_word(param.out))?;
    put_type(&param.ty, text, schema, home)?;
    text.word(" ")?;
    text.put(&param.name)
}

/// Parameters that are not the first.
fn put_others(
    text: &mut TextBuffer,
    schema: &Schema,
    home: &[u8],
    params: &[Param],
) -> Result<(), AllocError>
    ensures { OnOk result (text.new ≡ text.old ++ flat_map (λ p. codes ", " ++ param_text schema.now home.now p) params.now) }
{
    for param in params {
        text.word(", ")?;
        put_param(text, schema, home, param)?;
    }
    Ok(())
}

fn put_params(
    text: &mut TextBuffer,
    schema: &Schema,
    home: &[u8],
    params: &[Param],
) -> Result<(), AllocError>
    ensures { OnOk result (text.new ≡ text.old ++ params_text schema.now home.now params.now) }
{
    match params {
        [] => Ok(()),
        [first, others @ ..] => {
            put_param(text, schema, home, first)?;
            put_others(text, schema, home, others)
        }
    }
}

fn put_return(
    text: &mut TextBuffer,
    schema: &Schema,
    home: &[u8],
    ret: &Option<Ty>,
) -> Result<(), AllocError>
    ensures { OnOk result (text.new ≡ text.old ++ return_text schema.now home.now ret.now) }
{
    match ret {
        None => text.word("void"),
        Some(ty) => put_type(ty, text, schema, home),
    }
}

#[tactic(auto, unfolding(crate::specs::Canonical::func_line))]
fn put_func(
    text: &mut TextBuffer,
    schema: &Schema,
    home: &[u8],
    func: &FuncDesc,
) -> Result<(), AllocError>
    ensures { OnOk result (text.new ≡ text.old ++ func_line schema.now home.now func.now) }
{
    text.word("        ")?;
    put_return(text, schema, home, &func.ret)?;
    text.word(" ")?;
    text.put(&func.name)?;
    text.word("(")?;
    put_params(text, schema, home, func.params.as_slice())?;
    text.word(");\n")
}

pub(crate) fn put_funcs(
    text: &mut TextBuffer,
    schema: &Schema,
    home: &[u8],
    funcs: &[FuncDesc],
) -> Result<(), AllocError>
    ensures { OnOk result (text.new ≡ text.old ++ flat_map (func_line schema.now home.now) funcs.now) }
{
    for func in funcs {
        put_func(text, schema, home, func)?;
    }
    Ok(())
}
