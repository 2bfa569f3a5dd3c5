//! Parameters: the word `routekey`.

ghost use Rattle.std.specs.Prelude.{◌≡◌, ◌++◌, []};
ghost use Rattle.std.specs.List.{flat_map};
ghost use Rattle.least_fault.specs.Least.{Notes};
ghost use Rattle.idl_scene.specs.Faults.{is_below};
ghost use Rattle.idl_rules.specs.JudgeSteps.{params_faults};
ghost use Rattle.idl_rules.specs.Parts.{func_params};

use crate::members::note_left_out;
use idl_parse::tree::{FuncTree, ParamTree};
use idl_scene::{Fault, Scene};

fn judge_params(params: &[ParamTree], scene: &Scene<'_, '_>, least: &mut Option<Fault>)
    ensures { Notes is_below least.old least.new (params_faults scene.now params.now) }
{
    for param in params {
        note_left_out(param.routekey, scene, least);
    }
}

/// Judges the parameters of functions, but for their types and names.
pub(crate) fn judge_routekeys(funcs: &[FuncTree], scene: &Scene<'_, '_>, least: &mut Option<Fault>)
    ensures { Notes is_below least.old least.new (params_faults scene.now (flat_map func_params funcs.now)) }
{
    for func in funcs {
        judge_params(func.params.as_slice(), scene, least);
    }
}
