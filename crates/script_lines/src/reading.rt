//! Whole scripts.

ghost use Rattle.std.specs.Prelude.{◌≡◌, ◌≤◌, length, IfOk, IfErr};
ghost use Rattle.std.specs.List.{before_first, after_first};
ghost use Rattle.script_lines.specs.AnswerSteps.{KeepsAll, GivesOutcome};
ghost use Rattle.script_lines.specs.KeptSteps.{keep_lines, nothing_kept, outcome};
ghost use Rattle.script_lines.specs.Lines.{text_lines, is_feed};
ghost use Rattle.script_lines.specs.ScriptAnswers.{GivesScript, GivesFault, IsRefusalOf};
ghost use Rattle.script_lines.specs.ScriptLimits.{KeepsLimits};
ghost use Rattle.script_lines.specs.Scripts.{IsScript, IsScriptFault, Script};
ghost use Rattle.script_lines.specs.Views.{script_of};
ghost use Rattle.script_lines.specs.declared.fault.ScriptFault.{ScriptFault as Fault};
ghost use Rattle.tars_base.specs.Limits.{MAX_FILE};

use crate::draft::Draft;
use crate::fault::ScriptRefusal;
use crate::scan::find;
use crate::script_lines::ScriptLines;
use std::alloc::Global;

/// The first line, without its line feed, and what stands after it. The last line may have no line feed.
fn split_line(text: &[u8]) -> (&[u8], &[u8])
    ensures line { result.0.now ≡ before_first is_feed text.now }
    ensures rest { result.1.now ≡ after_first is_feed text.now }
{
    match find(text, b'\n') {
        Some(end) => (&text[..end], &text[end + 1..]),
        None => (text, &text[text.len()..]),
    }
}

/// What the lines of the text have said.
fn read_lines(alloc: Global, text: &[u8]) -> Result<Draft<'_>, ScriptRefusal>
    requires { length text.now ≤ MAX_FILE }
    ensures { KeepsAll result (keep_lines nothing_kept (text_lines text.now)) }
{
    let mut draft = Draft::new(alloc);
    let mut rest = text;
    while !rest.is_empty() {
        let at = (text.len() - rest.len()) as u32;
        let (line, after) = split_line(rest);
        draft.keep_line(at, line)?;
        rest = after;
    }
    Ok(draft)
}

#[tactic(auto, unfolding(crate::specs::KeptSteps::outcome))]
fn read_text(alloc: Global, text: &[u8]) -> Result<ScriptLines<'_>, ScriptRefusal>
    requires { length text.now ≤ MAX_FILE }
    ensures { GivesOutcome result (outcome text.now) }
{
    let draft = read_lines(alloc, text)?;
    let script = draft.finish(text.len() as u32)?;
    Ok(script)
}

/// What the lines of a script of at most 1,048,576 bytes say, or its fault (docs/SCRIPTS.md, "General scripts").
pub fn read_script(alloc: Global, text: &[u8]) -> Result<ScriptLines<'_>, ScriptRefusal>
    requires { length text.now ≤ MAX_FILE }
    // What is given is what the text says.
    ensures read { IfOk result (λ script. IsScript text.now (script_of script)) }
    // Its calls are within the limit, and no function has two rules.
    ensures limits { IfOk result (λ script. KeepsLimits (script_of script)) }
    // What a script says is given, unless memory runs out.
    ensures only { (script : Script) → IsScript text.now script → GivesScript result script }
    // A fault is the text's.
    ensures fault { IfErr result (λ refusal. IsRefusalOf text.now refusal) }
    // A text's fault is given, unless memory runs out.
    ensures refused { (fault : Fault) → IsScriptFault text.now fault → GivesFault result fault }
{
    read_text(alloc, text)
}
