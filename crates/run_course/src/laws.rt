//! The laws.

ghost use Rattle.std.specs.Prelude.{◌≡◌, ℕ, List, Some, map, filter_map, slice_get};
ghost use Rattle.script_session.specs.declared.session.Event.{Event};
ghost use Rattle.run_course.specs.Courses.{Life, Link, Noted, opened};
ghost use Rattle.run_course.specs.Legal.{IsCallAt, IsLinkAt, IsRead, IsStill, HasCause, IsUsed, IsNamed, sent_of, Scripted, scripted, IsAsScripted};
ghost use Rattle.run_course.specs.LegalReports.{IsLegal};
ghost use Rattle.run_course.specs.OneNode.{IsOneNode};
ghost use Rattle.run_course.specs.Planned.{ended, planned};
ghost use Rattle.script_session.specs.declared.session.Session.{Session};

/// What holds of a run, whatever its events are.
pub fn legal_course()
    // There is a call for each scripted one, in order.
    ensures rows { (s : Session) (events : List Event) → map (λ (call : Noted). call.spec) (ended s events).calls ≡ map (λ (text : Scripted). text.spec) (scripted events) }
    // No id stands twice.
    ensures ids { (s : Session) (events : List Event) (j k : ℕ) (call other : Noted) (life next : Life) → IsCallAt (ended s events) j call
        → IsCallAt (ended s events) k other → call.stage ≡ opened life → other.stage ≡ opened next → life.id ≡ next.id → j ≡ k }
    // What was sent to a node are the requests of the calls that were opened there, each once, in order.
    ensures sends { (s : Session) (events : List Event) (node : ℕ) (link : Link) → IsLinkAt (ended s events) node link
        → link.sent ≡ filter_map (sent_of s node) (ended s events).calls }
    // On each link what was read is what the bytes say, and the node answered requests that were offered to it, none twice: those that
    // found no room in their order, and those that it took in theirs.
    ensures reads { (s : Session) (events : List Event) (node : ℕ) (link : Link) → IsLinkAt (ended s events) node link → IsRead s link }
    // No event moves the moment yet.
    ensures moments { (s : Session) (events : List Event) → IsStill (ended s events) }
    // Each end has its cause: a packet that came for the call, or the close.
    ensures ends { (s : Session) (events : List Event) (k : ℕ) (call : Noted) → IsCallAt (ended s events) k call → HasCause s (ended s events) call.stage }
    // Each packet that settled a call is named by the call with its id.
    ensures replies { (s : Session) (events : List Event) (node packet id : ℕ) (bytes : List ℕ)
        → IsUsed (ended s events) node packet bytes id → IsNamed (ended s events) node packet id }
{}

/// What holds while there is one line of eight and one node, and nothing is collected before the end.
pub fn one_node_course()
    // Each call is refused or opened by what came before it.
    ensures refusals { (s : Session) (events : List Event) (k : ℕ) (call : Noted) → IsCallAt (ended s events) k call
        → (text : Scripted) × (slice_get (scripted events) k ≡ Some text) × IsAsScripted (ended s events) k call text }
{}

/// The report of every session is legal.
pub fn legal_report()
    ensures { (s : Session) → IsLegal s (planned s) }
{}

/// What holds of it while there is one line of eight and one node, and nothing is collected before the end.
pub fn one_node_report()
    ensures { (s : Session) → IsOneNode s (planned s) }
{}
