//! The least of the faults that a list of conditions finds, where each judges one item after another with those
//! before it. There is no code here, only definitions and theorems: read `specs/Conditions.antt`, then
//! `specs/Least.antt`, then `least_together` in `proofs/Together.antt`: judging each item by all conditions, one item
//! after the other, finds the same least fault.
#![tactic(auto)]
