//! The laws.

ghost use Rattle.std.specs.Prelude.{All};
ghost use Rattle.tars_model.specs.Schemas.{IsSchema};
ghost use Rattle.script_session.specs.Judged.{IsJudged};
ghost use Rattle.script_session.specs.declared.session.Session.{Session};
ghost use Rattle.run_course.specs.Planned.{planned};
ghost use Rattle.run_answers.specs.Answered.{IsAnswered, TakesAll, HasNoRest};

/// Where loading has judged the session, each call is answered by what the servant replies to its arguments.
pub fn answered_by_servant()
    ensures { (s : Session) → IsSchema s.client → IsSchema s.server → IsJudged s → IsAnswered s (planned s) }
{}

/// And where each delivery takes all the bytes that wait, nothing is left of a packet.
pub fn nothing_left()
    ensures { (s : Session) → IsSchema s.client → IsSchema s.server → IsJudged s → All TakesAll s.events → HasNoRest (planned s) }
{}
