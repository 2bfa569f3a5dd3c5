//! Laws of responses and servants. The functions do nothing: they are their contracts.

ghost use Rattle.std.specs.Prelude.{◌≤◌, ◌++◌, ℕ, ℤ, List, length, IfSome};
ghost use Rattle.tars_frames.specs.Streams.{LONGEST};
ghost use Rattle.tars_model.specs.Declarations.{Declared};
ghost use Rattle.tars_model.specs.declared.func_desc.FuncDesc.{FuncDesc as AFunc};
ghost use Rattle.rpc_packet.specs.Packets.{response_frame};
ghost use Rattle.rpc_packet.specs.declared.request.Request.{Request as ARequest};
ghost use Rattle.servant_core.specs.Answers.{answered, unseen};
ghost use Rattle.servant_core.specs.Servants.{Always, Handled, IsAfter, IsSuited, Meaning};
ghost use Rattle.servant_core.specs.declared.replies.Reply.{Reply};

/// No response is longer than a packet may be, whatever the servant replies.
#[tactic(auto, using(crate::proofs::Lengths::answered_short, crate::proofs::Lengths::unseen_short))]
pub fn responses_are_packets()
    ensures unseen { (r : ARequest) (code : ℤ) → IfSome (unseen r code) (λ response. length (response_frame response) ≤ LONGEST) }
    ensures answered { (d : Declared) (interface : ℕ) (name : List ℕ) (reply : Handled → Reply) (r : ARequest) (now : ℕ)
        → IfSome (answered d interface name reply r now) (λ response. length (response_frame response) ≤ LONGEST) }
{}

/// A run of calls goes on, and a servant whose replies always fit is one after it.
#[tactic(auto, using(crate::proofs::Meanings::after_on, crate::proofs::Meanings::always_after))]
pub fn runs_go_on()
    ensures more { (start middle now : Meaning) (calls more : List Handled) → IsAfter start calls middle → IsAfter middle more now
        → IsAfter start (calls ++ more) now }
    ensures suited { (d : Declared) (funcs : List AFunc) (start now : Meaning) (calls : List Handled) → IsAfter start calls now
        → Always (IsSuited d funcs) start → Always (IsSuited d funcs) now }
{}
