ghost use Rattle.std.specs.Prelude.{◌≡◌, ◌<◌, ◌^◌, true, length, vec_len, IfOk};
ghost use Rattle.hex_text.specs.HexText.{HexSpells};
ghost use Rattle.schema_files.specs.Refusals.{fault_at, refusal_line};
ghost use Rattle.schema_files.specs.LoadAnswers.{IsRefusedBy};
ghost use Rattle.struct_files.specs.Answers.{IsAnswered};
ghost use Rattle.struct_files.specs.Decoding.{value_line, refuse_line, Decodes, DecodesFile};
ghost use Rattle.struct_files.specs.Steps.{IsComing, IsRefusing};
ghost use Rattle.tars_base.specs.Causes.{HasCauseOf};
ghost use Rattle.tars_base.specs.Contents.{Held, IsHeld};
ghost use Rattle.tars_decode.specs.Decoding.{Answers, Judges};
ghost use Rattle.tars_decode.specs.Reads.{reads};
ghost use Rattle.tars_model.specs.Declarations.{members_at};
ghost use Rattle.tars_model.specs.Values.{fit_members};
ghost use Rattle.tars_wire.specs.Heads.{MAX_DEPTH};
ghost use Rattle.tars_wire.specs.Spelled.{Spelled};
ghost use Rattle.wire_words.specs.Tree.{WireFields};

use crate::opening::{Opened, open};
use hex_text::{HexFault, read_hex};
use refuse_lines::put_refuse;
use schema_files::{LoadFault, Stage, TextFault, refused};
use std::alloc::{AllocError, Global};
use tars_base::Files;
use tars_decode::{Refuse, decode};
use tars_model::{Bytes8, List, Schema, StructName, Ty, Value};
use text_buffer::TextBuffer;
use value_text::print_value;

/// The values of the struct of a number as text, in a line.
#[tactic(auto, unfolding(crate::specs::Decoding::value_line))]
fn value_line(
    alloc: Global,
    schema: &Schema,
    number: u32,
    values: List<Value>,
) -> Result<Vec<u8>, AllocError>
    requires { fit_members schema.now (members_at schema.now number) values ≡ true }
    ensures { IfOk result (λ line. line.items ≡ value_line schema.now number values) }
{
    let ty = Ty::Struct(number);
    let value = Value::Struct(values);
    let text = print_value(alloc, schema, &ty, &value)?;
    let mut line = TextBuffer::new(alloc);
    line.put(&text)?;
    line.word("\n")?;
    Ok(line.into_bytes())
}

/// Refuses a text that spells no bytes.
fn bad_hex(alloc: Global, file: &str, at: u32) -> LoadFault
    ensures { IsRefusedBy (refusal_line file.now (fault_at Stage.Hex 1 at)) result }
{
    let fault = TextFault {
        stage: Stage::Hex,
        number: 1,
        offset: at,
    };
    refused(alloc, file.as_bytes(), fault)
}

/// The line that refuses a file whose bytes give no values.
#[tactic(auto, unfolding(crate::specs::Decoding::refuse_line))]
fn refuse_line(alloc: Global, file: &str, why: &Refuse) -> Result<Bytes8, AllocError>
    ensures { IfOk result (λ line. line ≡ refuse_line file.now why.now) }
{
    let mut line = TextBuffer::new(alloc);
    line.word("refused ")?;
    line.word(file)?;
    line.word(" ")?;
    put_refuse(&mut line, why)?;
    line.word("\n")?;
    Ok(Bytes8::from_vec(line.into_bytes()))
}

/// Refuses the bytes of a file, if there is memory for the line.
fn bad_bytes(alloc: Global, file: &str, why: &Refuse) -> LoadFault
    ensures { IsRefusing file.now why.now result }
{
    if let Refuse::Memory = why {
        return LoadFault::Memory;
    }
    match refuse_line(alloc, file, why) {
        Ok(line) => LoadFault::Refused { line },
        Err(_) => LoadFault::Memory,
    }
}

/// The values of the struct of a number, from bytes.
fn values_of(
    alloc: Global,
    schema: &Schema,
    number: u32,
    bytes: &[u8],
) -> Result<List<Value>, Refuse>
    requires { length bytes.now < 2 ^ 32 }
    ensures reads { (fields : WireFields) → Spelled MAX_DEPTH bytes.now fields
        → Answers result (reads schema.now (members_at schema.now number) fields) }
    ensures judged { Judges bytes.now result }
    ensures fits { IfOk result (λ values. fit_members schema.now (members_at schema.now number) values ≡ true) }
{
    // In a schema the tags of members rise, and their defaults are of their types.
    let _ = schema.order();
    decode(alloc, schema, schema.members_at(number), bytes)
}

/// The line of the values in the bytes that the text of a hex file spells.
fn values_decoded(
    alloc: Global,
    opened: &Opened,
    bytes: &[u8],
    file: &str,
) -> Result<Vec<u8>, LoadFault>
    requires short { length bytes.now < 2 ^ 32 }
    requires spelt { HexSpells bytes.now opened.now.text.items }
    ensures { IsComing (Decodes file.now opened.now.schema opened.now.number opened.now.text.items) result }
{
    match values_of(alloc, &opened.schema, opened.number, bytes) {
        Ok(values) => Ok(value_line(alloc, &opened.schema, opened.number, values)?),
        Err(why) => Err(bad_bytes(alloc, file, &why)),
    }
}

/// The line of the values of the body that the text of a hex file spells.
fn decoded(alloc: Global, opened: &Opened, file: &str) -> Result<Vec<u8>, LoadFault>
    requires { vec_len opened.now.text < 2 ^ 32 }
    ensures { IsComing (Decodes file.now opened.now.schema opened.now.number opened.now.text.items) result }
{
    match read_hex(alloc, &opened.text) {
        Ok(bytes) => values_decoded(alloc, opened, &bytes, file),
        Err(HexFault::Bad { at }) => Err(bad_hex(alloc, file, at)),
        Err(HexFault::Memory) => Err(LoadFault::Memory),
    }
}

/// The values of the struct in the body that the file `hex` spells: as text, in a line.
pub fn decode_text<F: Files>(
    alloc: Global,
    files: &mut F,
    file: &str,
    of: StructName,
    hex: &str,
) -> Result<Vec<u8>, LoadFault>
    // This is returned for what the files held while they were read, which is what they are told to hold where that is
    // told, and nothing else.
    ensures exact { (held : Held) × IsHeld (F.contents files.old) held
        × IsAnswered (DecodesFile held file.now of.entry.module.now of.entry.name.now hex.now) result }
    ensures same { F.contents files.new ≡ F.contents files.old }
    ensures cause { HasCauseOf LoadFault.Read (F.faults files.old) (F.faults files.new) result }
{
    let opened = open(alloc, files, file, of, hex)?;
    decoded(alloc, &opened, hex)
}
