ghost use Rattle.std.specs.Prelude.{◌≡◌, ◌<◌, [], ◌∷◌, length};
ghost use Rattle.tars_versions.specs.declared.reason_kind.ReasonKind.TheVariants.{Mismatch};

use crate::reason_kind::ReasonKind;
use std::marker::Model;

/// The most steps of a path.
const MAX_STEPS: usize = 40;

/// Why two versions do not agree, with the path to the first place where they do not: a member's tag, 0 for the
/// elements of a vector or the keys of a map, 1 for the values of a map.
#[derive(Drop)]
pub struct Path {
    /// The path is at the end.
    steps: [u32; MAX_STEPS],
    /// The index of the first step.
    first: usize,
    kind: ReasonKind,
}

impl Model for Path {
    ghost use Rattle.std.specs.Prelude.{◌≤◌, drop};
    ghost use Rattle.tars_versions.specs.Reasons.{Reason};

    ghost Value = { Reason };

    ghost view = { λ p. record { kind = p.kind; steps = drop p.first p.steps } };

    ghost invariant = { λ p. p.first ≤ 40 };
}

impl Path {
    /// A path without steps, to be filled by `compatible`.
    pub fn new() -> Path
        ensures { result ≡ record { kind = Mismatch; steps = [] } }
    {
        Path::here(ReasonKind::Mismatch)
    }

    /// A reason at the place itself.
    pub(crate) fn here(kind: ReasonKind) -> Path
        ensures { result ≡ record { kind = kind; steps = [] } }
    {
        Path {
            steps: [0; MAX_STEPS],
            first: MAX_STEPS,
            kind,
        }
    }

    /// The same reason, seen from one step further out.
    pub(crate) fn under(mut self, step: u32) -> Path
        requires { length self.steps < 40 }
        ensures { result ≡ record { kind = self.kind; steps = step ∷ self.steps } }
    {
        self.first -= 1;
        self.steps[self.first] = step;
        self
    }

    /// The steps, the outermost first.
    pub fn steps(&self) -> &[u32]
        ensures { result.now ≡ self.now.steps }
    {
        &self.steps[self.first..]
    }

    pub fn kind(&self) -> ReasonKind
        ensures { result ≡ self.now.kind }
    {
        self.kind
    }
}
