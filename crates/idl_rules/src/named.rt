//! Parts of declarations that have names.

ghost use Rattle.std.specs.Prelude.{◌≡◌, ◌&&◌, map, OnOk, IfOk};
ghost use Rattle.std.specs.List.{All};
ghost use Rattle.least_fault.specs.Least.{Notes};
ghost use Rattle.idl_parse.specs.TreeSpans.{NameIn};
ghost use Rattle.idl_lex.specs.declared.span.Span.{Span};
ghost use Rattle.idl_scene.specs.Faults.{is_below};
ghost use Rattle.idl_scene.specs.Items.{word};
ghost use Rattle.idl_scene.specs.Known.{once_more, each_once};
ghost use Rattle.idl_rules.specs.JudgeSteps.{list_faults};
ghost use Rattle.idl_rules.specs.SeenSteps.{faults_of_name};
ghost use Rattle.idl_rules.specs.Parts.{name_list};
ghost use Rattle.idl_rules.specs.Rules as spec;

use idl_lex::Span;
use idl_parse::tree::{EnumItem, FuncTree, MemberTree, ParamTree};
use idl_scene::{CheckWhy, Fault, Scene, WordSet, note_if};
use std::alloc::{AllocError, Global};

/// A part that has a name.
pub(crate) trait Named {
    ghost name_of: { Self → Span };

    fn name(&self) -> Span
        ensures { result ≡ name_of self.now };
}

impl Named for MemberTree {
    ghost name_of = { λ m. m.typed.name };

    fn name(&self) -> Span {
        self.typed.name
    }
}

impl Named for EnumItem {
    ghost name_of = { λ i. i.name };

    fn name(&self) -> Span {
        self.name
    }
}

impl Named for Span {
    ghost name_of = { λ s. s };

    fn name(&self) -> Span {
        *self
    }
}

impl Named for FuncTree {
    ghost name_of = { λ f. f.name };

    fn name(&self) -> Span {
        self.name
    }
}

impl Named for ParamTree {
    ghost name_of = { λ p. p.typed.name };

    fn name(&self) -> Span {
        self.typed.name
    }
}

/// Whether `tars_` stands in a word.
pub(crate) fn is_reserved(word: &[u8]) -> bool
    ensures { result ≡ spec.is_reserved word.now }
{
    let mut left = word;
    while let [_, rest @ ..] = left {
        if left.starts_with(b"tars_") {
            return true;
        }
        left = rest;
    }
    false
}

fn is_badly_declared(declares: bool, word: &[u8]) -> bool
    ensures { result ≡ (declares && spec.is_reserved word.now) }
{
    declares && is_reserved(word)
}

/// Judges a name of a list after so many others, whose words were seen.
fn judge_name<'a>(
    name: Span,
    declares: bool,
    full: bool,
    seen: &mut WordSet<'a>,
    scene: &Scene<'_, 'a>,
    least: &mut Option<Fault>,
) -> Result<(), AllocError>
    requires { NameIn scene.now.text name }
    ensures found { OnOk result (Notes is_below least.old least.new (faults_of_name scene.now declares full seen.old name)) }
    ensures seen { OnOk result (seen.new ≡ once_more seen.old (word scene.now.text name)) }
{
    let word = scene.word(name);
    let new = seen.insert(word)?;
    let reserved = is_badly_declared(declares, word);
    note_if(least, !new, scene.file, name.start, CheckWhy::TwiceName);
    note_if(
        least,
        reserved,
        scene.file,
        name.start,
        CheckWhy::BadIdentifier,
    );
    note_if(least, full, scene.file, name.start, CheckWhy::TooMany);
    Ok(())
}

/// Whether there are as many names as there may be.
fn is_full(most: Option<usize>, count: usize) -> bool
    ensures { result ≡ spec.is_full most count }
{
    match most {
        Some(most) => most <= count,
        None => false,
    }
}

/// Judges the names of parts that stand in one list: whether they are declared there, and how many there may be.
/// Returns the names, each once.
pub(crate) fn judge_names<'a, T: Named>(
    alloc: Global,
    parts: &[T],
    declares: bool,
    most: Option<usize>,
    scene: &Scene<'_, 'a>,
    least: &mut Option<Fault>,
) -> Result<WordSet<'a>, AllocError>
    requires { All (λ p. NameIn scene.now.text (T.name_of p)) parts.now }
    ensures found { OnOk result (Notes is_below least.old least.new
        (list_faults scene.now (name_list declares most (map T.name_of parts.now)))) }
    ensures words { IfOk result (λ words. words ≡ each_once (map (λ p. word scene.now.text (T.name_of p)) parts.now)) }
{
    let mut seen = WordSet::new(alloc);
    for (count, part) in parts.iter().enumerate() {
        judge_name(
            part.name(),
            declares,
            is_full(most, count),
            &mut seen,
            scene,
            least,
        )?;
    }
    Ok(seen)
}
