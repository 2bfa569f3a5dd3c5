//! Where a machine that reads a word letter by letter stops: at the end of the longest prefix that some
//! word of its language continues. There is no code here, only definitions and two theorems: read
//! `specs/Prefixes.antt`, then `specs/Machine.antt`, then `verdict_of` in `proofs/Verdicts.antt`, and
//! `goes_on` in `proofs/Laxer.antt` on what laxer machines say of the letter where a strict one stops.
#![tactic(auto)]
