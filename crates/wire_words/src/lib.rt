//! The words in which the other crates say what stands on the wire. There is no code here, only
//! definitions: read `specs/Tree.antt`, then `specs/Spelling.antt`, beside docs/PROTOCOL.md.
#![tactic(auto)]
