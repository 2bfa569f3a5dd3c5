//! The parser: a function a production, which takes what it reads off the tokens that are left. After an error they
//! begin with the token at fault.

mod decls;
mod enums;
pub(crate) mod file;
mod funcs;
pub(crate) mod halt;
mod items;
mod members;
mod names;
pub(crate) mod tokens;
mod types;
