//! What readers of several crates share: how one step of reading follows another, with the laws of it.
//! There is no code here, only definitions and lemmas: read `specs/OptionSteps.antt` and
//! `specs/ResultSteps.antt`.
#![tactic(auto)]
