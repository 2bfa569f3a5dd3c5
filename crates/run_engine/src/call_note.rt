ghost use Rattle.std.specs.Prelude.{◌≡◌};
ghost use Rattle.run_course.specs.Courses.{refused_call};
ghost use Rattle.script_session.specs.Sessions.{live_node};
ghost use Rattle.run_engine.specs.Notes.{note_of, note_under};

use crate::one_node::PICKED;
use script_session::{CallId, CallSpec, PickNote, Refusal};

/// What became of a call at first.
#[derive(Drop)]
pub(crate) enum Opening {
    Refused(Refusal),
    Opened(CallId),
}

/// What is kept of a scripted call.
#[derive(Drop)]
pub(crate) struct CallNote {
    pub call: u32,
    pub line: u32,
    pub func: u32,
    pub two_way: bool,
    pub pick: Option<PickNote>,
    pub opening: Opening,
}

impl CallNote {
    /// A call that is not sent.
    pub fn refused(spec: &CallSpec, pick: Option<PickNote>, why: Refusal) -> CallNote
        ensures { result ≡ note_of (refused_call spec.now pick why) }
    {
        CallNote {
            call: spec.call,
            line: spec.line,
            func: spec.func,
            two_way: spec.two_way,
            pick,
            opening: Opening::Refused(why),
        }
    }

    /// A call that is sent under an id to the one node.
    pub fn opened(spec: &CallSpec, id: u32) -> CallNote
        ensures { result ≡ note_under spec.now id }
    {
        CallNote {
            call: spec.call,
            line: spec.line,
            func: spec.func,
            two_way: spec.two_way,
            pick: Some(PICKED),
            opening: Opening::Opened(CallId(id)),
        }
    }
}
