//! Literals that are given to a type.

ghost use Rattle.std.specs.Prelude.{OnOk};
ghost use Rattle.least_fault.specs.Least.{Notes};
ghost use Rattle.idl_parse.specs.TreeSpans.{LiteralIn, TypeIn};
ghost use Rattle.idl_parse.specs.declared.tree.type_tree.TypeTree.{out-TypeTree};
ghost use Rattle.idl_scene.specs.Faults.{is_below};
ghost use Rattle.idl_rules.specs.Rules.{bad_literal};

use idl_parse::tree::{Literal, TypeTree};
use idl_scene::{CheckWhy, Fault, Scene, fits_literal, literal_start, note_if};
use std::alloc::{AllocError, Global};

/// Judges the literal that is given to a type.
pub(crate) fn judge_literal(
    alloc: Global,
    ty: &TypeTree,
    literal: Literal,
    most: Option<usize>,
    scene: &Scene<'_, '_>,
    least: &mut Option<Fault>,
) -> Result<(), AllocError>
    requires ty { TypeIn scene.now.text ty.now }
    requires literal { LiteralIn scene.now.text literal }
    ensures { OnOk result (Notes is_below least.old least.new (bad_literal scene.now most (out-TypeTree ty.now) literal)) }
{
    let fits = fits_literal(alloc, ty, literal, most, scene)?;
    let at = literal_start(literal);
    note_if(least, !fits, scene.file, at, CheckWhy::BadDefault);
    Ok(())
}
