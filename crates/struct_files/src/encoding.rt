ghost use Rattle.std.specs.Prelude.{◌≡◌, ◌<◌, ◌^◌, true, vec_len, IfOk};
ghost use Rattle.schema_files.specs.Refusals.{fault_at, refusal_line};
ghost use Rattle.schema_files.specs.LoadAnswers.{IsRefusedBy};
ghost use Rattle.struct_files.specs.Answers.{IsAnswered};
ghost use Rattle.struct_files.specs.Encoding.{hex_line, Encodes, EncodesFile};
ghost use Rattle.struct_files.specs.Steps.{IsComing};
ghost use Rattle.tars_base.specs.Causes.{HasCauseOf};
ghost use Rattle.tars_base.specs.Contents.{Held, IsHeld};
ghost use Rattle.tars_codec.specs.Written.{written};
ghost use Rattle.tars_model.specs.Declarations.{members_at};
ghost use Rattle.tars_model.specs.Values.{fit_members};
ghost use Rattle.tars_model.specs.declared.ty.Ty.TheVariants as Kind;
ghost use Rattle.tars_model.specs.declared.value.Value.TheVariants as Made;
ghost use Rattle.value_text.specs.Answers.{IfBad};
ghost use Rattle.value_text.specs.Faults.{WholeFaultOf};
ghost use Rattle.value_text.specs.Spelling.{IsWhole};
ghost use Rattle.value_text.specs.ValueWhy.{number_of};

use crate::opening::{Opened, open};
use bytes::BytesMut;
use schema_files::{LoadFault, Stage, TextFault, refused};
use std::alloc::{AllocError, Global};
use tars_base::Files;
use tars_codec::encode;
use tars_model::{List, Schema, StructName, Ty, Value};
use text_buffer::TextBuffer;
use value_text::{ValueFault, ValueWhy, read_whole};

/// The body that spells the values of the struct of a number.
fn body_of(
    alloc: Global,
    schema: &Schema,
    number: u32,
    values: &[Value],
) -> Result<Vec<u8>, AllocError>
    requires { fit_members schema.now (members_at schema.now number) values.now ≡ true }
    ensures { IfOk result (λ body. body.items ≡ written schema.now (members_at schema.now number) values.now) }
{
    // In a schema the tags of members rise.
    let _ = schema.order();
    let mut body = BytesMut::new(alloc);
    encode(schema, schema.members_at(number), values, &mut body)?;
    Ok(body.into_vec()?)
}

/// Bytes in hexadecimal, as a line.
#[tactic(auto, unfolding(crate::specs::Encoding::hex_line))]
fn hex_line(alloc: Global, bytes: &[u8]) -> Result<Vec<u8>, AllocError>
    ensures { IfOk result (λ line. line.items ≡ hex_line bytes.now) }
{
    let mut line = TextBuffer::new(alloc);
    let digits = hex::encode_upper(alloc, bytes)?;
    line.word(digits.as_str())?;
    line.word("\n")?;
    Ok(line.into_bytes())
}

/// Refuses the text of a value.
fn bad_value(alloc: Global, file: &str, at: u32, why: ValueWhy) -> LoadFault
    ensures { IsRefusedBy (refusal_line file.now (fault_at Stage.Value (number_of why) at)) result }
{
    let fault = TextFault {
        stage: Stage::Value,
        number: why.number(),
        offset: at,
    };
    refused(alloc, file.as_bytes(), fault)
}

/// The values of the struct's members, which the text of a value file says.
fn values_of(alloc: Global, opened: &Opened) -> Result<List<Value>, ValueFault>
    requires { vec_len opened.now.text < 2 ^ 32 }
    ensures says { IfOk result (λ values. IsWhole opened.now.schema (Kind.Struct opened.now.number) (Made.Struct values) opened.now.text.items) }
    ensures fits { IfOk result (λ values. fit_members opened.now.schema (members_at opened.now.schema opened.now.number) values ≡ true) }
    ensures fault { IfBad result (WholeFaultOf opened.now.schema (Kind.Struct opened.now.number) opened.now.text.items) }
{
    let ty = Ty::Struct(opened.number);
    match read_whole(alloc, &opened.schema, &ty, &opened.text)? {
        Value::Struct(values) => Ok(values),
        _ => unreachable!(),
    }
}

/// The line of the body that the text of a value file says.
fn encoded(alloc: Global, opened: &Opened, file: &str) -> Result<Vec<u8>, LoadFault>
    requires { vec_len opened.now.text < 2 ^ 32 }
    ensures { IsComing (Encodes file.now opened.now.schema opened.now.number opened.now.text.items) result }
{
    let values = match values_of(alloc, opened) {
        Ok(values) => values,
        Err(ValueFault::Bad { at, why }) => return Err(bad_value(alloc, file, at, why)),
        Err(ValueFault::Memory) => return Err(LoadFault::Memory),
    };
    let body = body_of(alloc, &opened.schema, opened.number, values.as_slice())?;
    Ok(hex_line(alloc, &body)?)
}

/// The body of a value of the struct, which the file `values` says: in hexadecimal, as a line.
pub fn encode_text<F: Files>(
    alloc: Global,
    files: &mut F,
    file: &str,
    of: StructName,
    values: &str,
) -> Result<Vec<u8>, LoadFault>
    // This is returned for what the files held while they were read, which is what they are told to hold where that is
    // told, and nothing else.
    ensures exact { (held : Held) × IsHeld (F.contents files.old) held
        × IsAnswered (EncodesFile held file.now of.entry.module.now of.entry.name.now values.now) result }
    ensures same { F.contents files.new ≡ F.contents files.old }
    ensures cause { HasCauseOf LoadFault.Read (F.faults files.old) (F.faults files.new) result }
{
    let opened = open(alloc, files, file, of, values)?;
    encoded(alloc, &opened, values)
}
