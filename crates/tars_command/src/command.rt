//! A run over files and a sink. What it should do is said by `specs/Due.antt`.

ghost use Rattle.std.specs.Prelude.{◌≡◌, ◌≢◌, ◌⊎◌, ℕ, List, false, map, string_bytes, IfOk};
ghost use Rattle.std.specs.List.{list_all};
ghost use Rattle.command_words.specs.Asked.{check, plan, asked_by};
ghost use Rattle.command_words.specs.Words.{AreNoForm, is_word};
ghost use Rattle.run_course.specs.Planned.{planned};
ghost use Rattle.run_report.specs.ReportText.{report_text_of};
ghost use Rattle.tars_base.specs.Causes.{HasCauseOf, Rose};
ghost use Rattle.tars_base.specs.Contents.{Held, IsHeld};
ghost use Rattle.tars_command.specs.Runs.{WritesDue, EndsAsDue, KeepsQuiet};
ghost use Rattle.tars_command.specs.RunSteps.{IsComing, EndsWith};

use command_words::{OldNew, OnStruct, Request, WordsFault, request_of};
use idl_check::print;
use schema_files::{LoadFault, load_schema};
use session::{Loaded, Mode, load, report_text, run_plan};
use std::alloc::{AllocError, Global};
use struct_files::{compat_text, decode_text, encode_text};
use tars_base::{Failed, Files, Sink, Status, write_all};

/// What `check FILE` prints.
fn check_text<F: Files>(alloc: Global, files: &mut F, file: &str) -> Result<Vec<u8>, LoadFault>
    ensures exact { (held : Held) × IsHeld (F.contents files.old) held × IsComing held (check file.now) result }
    ensures same { F.contents files.new ≡ F.contents files.old }
    ensures cause { HasCauseOf LoadFault.Read (F.faults files.old) (F.faults files.new) result }
{
    let schema = load_schema(alloc, files, file)?;
    Ok(print(alloc, &schema)?)
}

/// The report of a session, as it is printed.
fn session_text(alloc: Global, loaded: &Loaded) -> Result<Vec<u8>, AllocError>
    ensures { IfOk result (λ text. text.items ≡ report_text_of loaded.now (planned loaded.now)) }
{
    let report = run_plan(alloc, loaded)?;
    report_text(alloc, loaded, &report)
}

/// What `plan SCRIPT` prints.
fn plan_text<F: Files>(alloc: Global, files: &mut F, script: &str) -> Result<Vec<u8>, LoadFault>
    ensures exact { (held : Held) × IsHeld (F.contents files.old) held × IsComing held (plan script.now) result }
    ensures same { F.contents files.new ≡ F.contents files.old }
    ensures cause { HasCauseOf LoadFault.Read (F.faults files.old) (F.faults files.new) result }
{
    let loaded = load(alloc, files, script, Mode::Plan)?;
    Ok(session_text(alloc, &loaded)?)
}

/// What a request prints.
fn text_of<F: Files>(alloc: Global, files: &mut F, request: Request) -> Result<Vec<u8>, LoadFault>
    ensures exact { (held : Held) × IsHeld (F.contents files.old) held × IsComing held (asked_by request.entry) result }
    ensures same { F.contents files.new ≡ F.contents files.old }
    ensures cause { HasCauseOf LoadFault.Read (F.faults files.old) (F.faults files.new) result }
{
    match request {
        Request::Check(file) => check_text(alloc, files, file),
        Request::Plan(script) => plan_text(alloc, files, script),
        Request::Encode(OnStruct { file, of, values }) => {
            encode_text(alloc, files, file, of, values)
        }
        Request::Decode(OnStruct { file, of, values }) => {
            decode_text(alloc, files, file, of, values)
        }
        Request::Compat(OldNew { old, new, of }) => compat_text(alloc, files, old, new, of),
    }
}

/// Writes a text, and returns how the run ends: as it is meant to, if all was written.
fn end_with<S: Sink>(out: &mut S, text: &[u8], meant: Status) -> Status
    requires { meant ≢ Status.WriteFault }
    ensures written { EndsWith (S.written out.old) (S.written out.new) text.now meant result }
    ensures cause { result ≡ Status.WriteFault → Rose (S.faults out.old) (S.faults out.new) }
    ensures kept { result ≢ Status.WriteFault → S.faults out.new ≡ S.faults out.old }
{
    match write_all(out, text) {
        Ok(()) => meant,
        Err(Failed) => Status::WriteFault,
    }
}

/// Carries out what the words ask for. The whole text is made before its first byte is written.
pub fn run<F: Files, S: Sink>(alloc: Global, words: &[String], files: &mut F, out: &mut S) -> Status
    // By what the files held while they were read, which is what they are told to hold where that is told: what is due
    // is written, and the run ends as it may for that.
    ensures due { (held : Held) × IsHeld (F.contents files.old) held
        × WritesDue held (map string_bytes words.now) (S.written out.old) (S.written out.new) result
        × EndsAsDue held (map string_bytes words.now) result }
    ensures usage { result ≡ Status.Usage → AreNoForm (map string_bytes words.now) }
    ensures no_form { AreNoForm (map string_bytes words.now)
        → (result ≡ Status.Usage) ⊎ (result ≡ Status.Memory) }
    ensures no_word { list_all is_word (map string_bytes words.now) ≡ false → result ≡ Status.Usage }
    ensures quiet { KeepsQuiet (S.written out.old) (S.written out.new) result }
    ensures same { F.contents files.new ≡ F.contents files.old }
    // The causes of the faults. A count rises in no other run.
    ensures read { result ≡ Status.ReadFault → Rose (F.faults files.old) (F.faults files.new) }
    ensures no_read { result ≢ Status.ReadFault → F.faults files.new ≡ F.faults files.old }
    ensures write { result ≡ Status.WriteFault → Rose (S.faults out.old) (S.faults out.new) }
    ensures no_write { result ≢ Status.WriteFault → S.faults out.new ≡ S.faults out.old }
    ensures net { result ≢ Status.NetFault }
{
    let request = match request_of(alloc, words) {
        Ok(request) => request,
        Err(WordsFault::Usage) => return Status::Usage,
        Err(WordsFault::Memory) => return Status::Memory,
    };
    match text_of(alloc, files, request) {
        Ok(text) => end_with(out, &text, Status::Done),
        Err(LoadFault::Refused { line }) => end_with(out, line.as_slice(), Status::Refused),
        Err(LoadFault::Read) => Status::ReadFault,
        Err(LoadFault::Memory) => Status::Memory,
    }
}
