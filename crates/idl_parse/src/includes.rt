//! The names that a file's includes give.

ghost use Rattle.std.specs.Prelude.{◌≡◌, ◌++◌, List as Listed, ℕ, ◌∷◌, [], IfOk, OnOk};
ghost use Rattle.std.specs.List.{All};
ghost use Rattle.idl_parse.specs.Files.{include_spans, AllSpell};
ghost use Rattle.idl_parse.specs.TreeSpans.{EntryIn};

use crate::tree::Entry;
use idl_lex::plain_text;
use std::alloc::{AllocError, Global};
use tars_model::{Bytes8, List};

/// Adds the name that an include gives.
fn add_name(
    alloc: Global,
    text: &[u8],
    entry: &Entry,
    names: &mut List<Bytes8>,
) -> Result<(), AllocError>
    requires { EntryIn text.now entry.now }
    ensures { OnOk result ((added : Listed (Listed ℕ)) × (names.new ≡ names.old ++ added) × AllSpell text.now (include_spans (entry.now ∷ [])) added) }
{
    if let Entry::Include(span) = entry {
        names.push(plain_text(alloc, span.slice(text))?)?;
    }
    Ok(())
}

/// The names that the includes give, in the order of the text.
pub(crate) fn include_names(
    alloc: Global,
    text: &[u8],
    entries: &[Entry],
) -> Result<List<Bytes8>, AllocError>
    requires { All (EntryIn text.now) entries.now }
    ensures { IfOk result (λ names. AllSpell text.now (include_spans entries.now) names) }
{
    let mut names = List::new(alloc);
    for entry in entries {
        add_name(alloc, text, entry, &mut names)?;
    }
    Ok(names)
}
