ghost use Rattle.std.specs.Prelude.{◌≡◌};
ghost use Rattle.script_session.specs.Judged.{IsJudged};

use crate::Session;
use std::marker::Model;

/// A session that was judged: its interfaces and its node are there, rules and arguments fit their functions, numbers are in their
/// ranges, and requests are within the limit of a packet.
#[derive(Drop)]
pub struct Loaded {
    session: Session,
}

impl Model for Loaded {
    ghost use Rattle.std.specs.Coded.{codes};
    ghost use Rattle.script_session.specs.Judged.{IsJudged};
    ghost use Rattle.script_session.specs.declared.session.Session.{Session};
    ghost use Rattle.tars_model.specs.contracts.ty.Ty as ty;
    ghost use Rattle.tars_model.specs.contracts.value.Value as value;

    ghost Value = { Session };

    ghost coded = { Prim.hlevel (codes, ty.the_row.coded, value.the_row.coded) };

    ghost view = { λ l. l.session };

    ghost invariant = { λ l. IsJudged l.session };
}

impl Loaded {
    pub fn new(session: Session) -> Loaded
        requires judged { IsJudged session }
        ensures { result ≡ session }
    {
        Loaded { session }
    }

    pub fn session(&self) -> &Session
        ensures value { result.now ≡ self.now }
        ensures judged { IsJudged self.now }
    {
        &self.session
    }
}
