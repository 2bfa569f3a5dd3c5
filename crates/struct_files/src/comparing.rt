//! Two versions of a struct, from two interface files.

ghost use Rattle.std.specs.Prelude.{◌≡◌, IfOk};
ghost use Rattle.struct_files.specs.Answers.{IsAnswered};
ghost use Rattle.struct_files.specs.Comparing.{kind_text, agreement_line as line_of, structs_agree, ComparesFiles};
ghost use Rattle.tars_base.specs.Causes.{HasCauseOf};
ghost use Rattle.tars_base.specs.Contents.{Held, IsHeld};
ghost use Rattle.tars_versions.specs.Agreement.{agree, differ};

use crate::finding::{Found, find_struct};
use refuse_lines::put_path;
use schema_files::LoadFault;
use std::alloc::{AllocError, Global};
use tars_base::Files;
use tars_model::StructName;
use tars_versions::{Path, ReasonKind, compatible};
use text_buffer::TextBuffer;

fn word_of(kind: ReasonKind) -> &'static str
    ensures { result.now ≡ kind_text kind }
{
    match kind {
        ReasonKind::Missing => "missing",
        ReasonKind::Mismatch => "mismatch",
    }
}

/// The line of versions that agree.
#[tactic(auto, unfolding(crate::specs::Comparing::agreement_line))]
fn compatible_line(alloc: Global) -> Result<Vec<u8>, AllocError>
    ensures { IfOk result (λ line. line.items ≡ line_of agree) }
{
    let mut line = TextBuffer::new(alloc);
    line.word("compatible\n")?;
    Ok(line.into_bytes())
}

/// The line of versions that do not agree.
#[tactic(auto, unfolding(crate::specs::Comparing::agreement_line))]
fn incompatible_line(alloc: Global, reason: &Path) -> Result<Vec<u8>, AllocError>
    ensures { IfOk result (λ line. line.items ≡ line_of (differ reason.now)) }
{
    let mut line = TextBuffer::new(alloc);
    line.word("incompatible ")?;
    line.word(word_of(reason.kind()))?;
    line.word(" ")?;
    put_path(&mut line, reason.steps())?;
    line.word("\n")?;
    Ok(line.into_bytes())
}

/// Whether the new struct agrees with the old one, as a line.
fn agreement_line(alloc: Global, old: &Found, new: &Found) -> Result<Vec<u8>, AllocError>
    ensures { IfOk result (λ line. line.items ≡ line_of (structs_agree old.now.schema old.now.number new.now.schema new.now.number)) }
{
    // In a schema the tags of members rise, and their types are over what is declared.
    let _old_order = old.schema.order();
    let _new_order = new.schema.order();
    let old_members = old.schema.members_at(old.number);
    let new_members = new.schema.members_at(new.number);
    let mut reason = Path::new();
    if compatible(
        &old.schema,
        old_members,
        &new.schema,
        new_members,
        &mut reason,
    ) {
        compatible_line(alloc)
    } else {
        incompatible_line(alloc, &reason)
    }
}

/// Whether the struct in the file `new` agrees with the one of that name in the file `old`, and else the first reason: as a
/// line.
pub fn compat_text<F: Files>(
    alloc: Global,
    files: &mut F,
    old: &str,
    new: &str,
    of: StructName,
) -> Result<Vec<u8>, LoadFault>
    // This is returned for what the files held while they were read, which is what they are told to hold where that is
    // told, and nothing else.
    ensures exact { (held : Held) × IsHeld (F.contents files.old) held
        × IsAnswered (ComparesFiles held old.now new.now of.entry.module.now of.entry.name.now) result }
    ensures same { F.contents files.new ≡ F.contents files.old }
    ensures cause { HasCauseOf LoadFault.Read (F.faults files.old) (F.faults files.new) result }
{
    let before = find_struct(alloc, files, old, of)?;
    let after = find_struct(alloc, files, new, of)?;
    Ok(agreement_line(alloc, &before, &after)?)
}
