ghost use Rattle.std.specs.Prelude.{◌≡◌, All, IfOk};
ghost use Rattle.run_answers.specs.Answered.{HasNoRest, IsAnswered, TakesAll};
ghost use Rattle.run_course.specs.LegalReports.{IsLegal};
ghost use Rattle.run_course.specs.OneNode.{IsOneNode};
ghost use Rattle.run_course.specs.Planned.{planned};

use crate::one_line::OneLine;
use crate::plan::Plan;
use run_answers::{answered_by_servant, nothing_left};
use run_course::{legal_report, one_node_report};
use script_session::{Loaded, Report};
use session_service::Service;
use std::alloc::{AllocError, Global};

/// The report of a session (docs/SCRIPTS.md, "Events").
pub fn run_plan(alloc: Global, loaded: &Loaded) -> Result<Report, AllocError>
    ensures planned { IfOk result (λ report. report ≡ planned loaded.now) }
    ensures legal { IfOk result (λ report. IsLegal loaded.now report) }
    // While there is one line of eight and one node, and nothing is collected before the end.
    ensures one_node { IfOk result (λ report. IsOneNode loaded.now report) }
    // Each call that a packet ended is answered by what the servant replies to its own arguments, or by a full queue.
    ensures answered { IfOk result (λ report. IsAnswered loaded.now report) }
    // Where each delivery takes all the bytes that wait, nothing is left of a packet.
    ensures left { All TakesAll loaded.now.events → IfOk result (λ report. HasNoRest report) }
{
    legal_report();
    one_node_report();
    answered_by_servant();
    nothing_left();
    // What both schemas declare keeps the rules.
    let session = loaded.session();
    let _of_client = session.client.order();
    let _of_server = session.server.order();
    let service = Service::new(alloc, loaded)?;
    let mut plan = Plan::new(alloc, service, OneLine::new(alloc))?;
    plan.run(alloc, session.events.as_slice())?;
    plan.close();
    plan.into_report(alloc)
}
