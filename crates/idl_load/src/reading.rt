//! One interface file.

ghost use Rattle.std.specs.Prelude.{◌≡◌, IfOk, IfSome};
ghost use Rattle.idl_load.specs.FileText.{IsText};
ghost use Rattle.idl_load.specs.LoadSteps.{text_of};
ghost use Rattle.tars_base.specs.Contents.{HoldsOnly};

use crate::file_fault::FileFault;
use crate::tree_fault::TreeFault;
use idl_lex::lex;
use idl_parse::{Ast, parse};
use std::alloc::Global;
use tars_base::MAX_FILE;

/// The tree of a file's text, or what is wrong with it. A text that is longer than it may be needs to be read only so
/// far that this shows.
pub fn read_tree(alloc: Global, name: &str, text: &[u8]) -> Result<Ast, TreeFault>
    ensures text { IfSome (text_of result) (HoldsOnly (IsText text.now)) }
    ensures named { IfOk result (λ ast. ast.name ≡ name.now) }
    ensures kept { IfOk result (λ ast. ast.text ≡ text.now) }
{
    if text.len() > MAX_FILE {
        return Err(TreeFault::Refused(FileFault::TooLong));
    }
    let tokens = lex(alloc, text)?;
    let ast = parse(alloc, name, text, tokens.as_slice())?;
    Ok(ast)
}
