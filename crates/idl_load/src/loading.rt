//! A file and those that it includes.

ghost use Rattle.std.specs.Prelude.{◌≡◌, ◌≤◌, ◌<◌, ◌+◌, ℕ, false, length, slice_range, IfOk, List as Listed};
ghost use Rattle.std.specs.List.{All};
ghost use Rattle.idl_load.specs.Loading.{MAX_FILES as most_files, include as included, follow as followed, visit as visited, load_of};
ghost use Rattle.idl_load.specs.LoadAnswers.{ForRead, HasLoaded};
ghost use Rattle.idl_load.specs.LoadSteps.{IsGiven, IsRefusedFor, ForStep, Keeps, is_in};
ghost use Rattle.idl_parse.specs.Files.{include_spans};
ghost use Rattle.idl_lex.specs.Meanings.{plain_text as meaning};
ghost use Rattle.idl_parse.specs.TreeSpans.{StandsAt};
ghost use Rattle.idl_lex.specs.declared.kind.Kind.TheVariants.{Text as TextKind};
ghost use Rattle.idl_load.specs.FileText.{FileText, IsText};
ghost use Rattle.idl_load.specs.Loading.{Reading, Reads};
ghost use Rattle.tars_base.specs.Causes.{HasCauseOf};
ghost use Rattle.tars_base.specs.Contents.{Contents as Told};
ghost use Rattle.tars_base.specs.Limits.{MAX_FILE as longest};

use crate::file_fault::FileFault;
use crate::files_fault::FilesFault;
use crate::progress::Progress;
use crate::reading::read_tree;
use crate::tree_fault::TreeFault;
use idl_lex::{Span, plain_text};
use idl_parse::Ast;
use idl_parse::tree::Entry;
use std::alloc::Global;
use tars_base::{Files, MAX_FILE};
use tars_model::{List, Name};

/// How many files an interface may have.
const MAX_FILES: usize = 64;

/// Refuses a file, if there is memory for its name.
fn refused(alloc: Global, name: &str, fault: TreeFault) -> FilesFault
    ensures { IsRefusedFor name.now fault result }
{
    let TreeFault::Refused(fault) = fault else {
        return FilesFault::Memory;
    };
    match Name::from_slice(alloc, name.as_bytes()) {
        Ok(file) => FilesFault::Refused { file, fault },
        Err(_) => FilesFault::Memory,
    }
}

/// Goes into one include of a file, unless its name is no text or was begun.
#[cycle(visit)]
#[tactic(auto, unfolding(crate::specs::Loading::include))]
fn include<F: Files>(
    alloc: Global,
    room: u32,
    files: &mut F,
    ast: &Ast,
    file: &str,
    span: Span,
    progress: &mut Progress,
) -> Result<(), FilesFault>
    requires stands { StandsAt ast.now.text TextKind span }
    requires room { most_files ≤ room + length progress.old.begun }
    ensures grows { length progress.old.begun ≤ length progress.new.begun }
    ensures keeps { Keeps progress.old.begun progress.new.begun }
    ensures exact { ForStep (F.contents files.old) progress.old.begun progress.new.begun (λ read. IsGiven result progress.new
        (included (visited room read) file.now progress.old (meaning (slice_range ast.now.text span.start span.end)) span.start)) }
    ensures same { F.contents files.new ≡ F.contents files.old }
    ensures cause { HasCauseOf FilesFault.Read (F.faults files.old) (F.faults files.new) result }
{
    let name = plain_text(alloc, span.slice(ast.text()))?;
    let Ok(name) = str::from_utf8(&name) else {
        return Ok(());
    };
    if progress.has_begun(name.as_bytes()) {
        return Ok(());
    }
    if progress.begun.len() >= MAX_FILES {
        let fault = FileFault::TooManyFiles { at: span.start };
        return Err(refused(alloc, file, TreeFault::Refused(fault)));
    }
    visit(alloc, room, files, name, progress)
}

/// Goes into the includes of a file, one after the other.
#[cycle(visit)]
#[tactic(auto, unfolding(crate::specs::Loading::follow))]
fn follow<F: Files>(
    alloc: Global,
    room: u32,
    files: &mut F,
    ast: &Ast,
    file: &str,
    progress: &mut Progress,
) -> Result<(), FilesFault>
    requires room { most_files ≤ room + length progress.old.begun }
    ensures grows { length progress.old.begun ≤ length progress.new.begun }
    ensures keeps { Keeps progress.old.begun progress.new.begun }
    ensures exact { ForStep (F.contents files.old) progress.old.begun progress.new.begun (λ read. IsGiven result progress.new
        (followed (visited room read) file.now ast.now.text progress.old (include_spans ast.now.entries))) }
    ensures same { F.contents files.new ≡ F.contents files.old }
    ensures cause { HasCauseOf FilesFault.Read (F.faults files.old) (F.faults files.new) result }
{
    'entries: for entry in ast.entries() {
        if let Entry::Include(span) = entry {
            include(alloc, room, files, ast, file, *span, progress)?;
        }
    }
    Ok(())
}

/// Reads a file and what it includes, where at most `room` files may be open one inside the other from here on.
#[cycle(visit)]
fn visit<F: Files>(
    alloc: Global,
    room: u32,
    files: &mut F,
    name: &str,
    progress: &mut Progress,
) -> Result<(), FilesFault>
    requires room { most_files ≤ room + length progress.old.begun }
    requires few { length progress.old.begun < most_files }
    requires fresh { is_in progress.old.begun name.now ≡ false }
    ensures grows { length progress.old.begun ≤ length progress.new.begun }
    ensures keeps { Keeps progress.old.begun progress.new.begun }
    ensures exact { ForStep (F.contents files.old) progress.old.begun progress.new.begun (λ read. IsGiven result progress.new (visited room read progress.old name.now)) }
    ensures same { F.contents files.new ≡ F.contents files.old }
    ensures cause { HasCauseOf FilesFault.Read (F.faults files.old) (F.faults files.new) result }
{
    progress
        .begun
        .push(Name::from_slice(alloc, name.as_bytes())?)?;
    let text = files.read(alloc, name, MAX_FILE + 1)?;
    let ast = match read_tree(alloc, name, &text) {
        Ok(ast) => ast,
        Err(fault) => return Err(refused(alloc, name, fault)),
    };
    follow(alloc, room - 1, files, &ast, name, progress)?;
    progress.done.push(ast)?;
    Ok(())
}

/// The file of a name and those that it includes, each after the files that it includes.
pub fn load_files<F: Files>(
    alloc: Global,
    files: &mut F,
    name: &str,
) -> Result<List<Ast>, FilesFault>
    // This is what loading gives of the files; of what was read of them, where they tell no contents.
    ensures exact { ForRead (F.contents files.old) (λ read. HasLoaded result (load_of read name.now)) }
    ensures few { IfOk result (λ found. length found ≤ most_files) }
    ensures short { IfOk result (λ found. All (λ file. length file.text ≤ longest) found) }
    ensures same { F.contents files.new ≡ F.contents files.old }
    ensures cause { HasCauseOf FilesFault.Read (F.faults files.old) (F.faults files.new) result }
{
    let mut progress = Progress::new(alloc);
    visit(alloc, MAX_FILES as u32, files, name, &mut progress)?;
    let Progress { begun: _, done } = progress;
    Ok(done)
}

/// What holds of all contents: something is read of them, and one thing only.
pub fn one_reading()
    ensures some { (contents : Told) → (read : Reading) × Reads contents read }
    ensures only { (bytes : Listed ℕ) (a b : FileText) → IsText bytes a → IsText bytes b → a ≡ b }
{}
