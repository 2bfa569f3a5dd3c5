//! The servant of a session.

ghost use Rattle.std.specs.Prelude.{◌≡◌, IfOk};
ghost use Rattle.script_session.specs.Judged.{IsJudged};
ghost use Rattle.session_service.specs.Made.{servant_of as servant_is};

use script_session::Session;
use servant_core::TableServant;
use std::alloc::{AllocError, Global};

/// The servant that replies by the rules of a session, in the server's version of the interface.
pub fn servant_of(alloc: Global, session: &Session) -> Result<TableServant, AllocError>
    requires { IsJudged session.now }
    ensures { IfOk result (λ servant. servant ≡ servant_is session.now) }
{
    let schema = session.server.copy(alloc)?;
    let mut servant = TableServant::new(alloc, schema, session.server_interface)?;
    let mut rest = session.rules.as_slice();
    // From the last rule on, so that the first one of a function counts.
    while let [before @ .., rule] = rest {
        servant.set(rule.func, rule.rule.copy(alloc)?);
        rest = before;
    }
    Ok(servant)
}
