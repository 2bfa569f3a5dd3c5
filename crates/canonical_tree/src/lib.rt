//! The canonical text of a schema as a tree: what its tokens are, and that the tree which they derive says the schema.
//! There is no code here, only definitions and theorems: read `specs/Pieces.antt`, then `specs/Says.antt`.
#![tactic(auto)]
