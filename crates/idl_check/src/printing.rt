ghost use Rattle.std.specs.Prelude.{◌≡◌, IfOk};
ghost use Rattle.canonical_text.specs.Canonical.{canonical};
ghost use Rattle.idl_check.specs.Printed.{DeclaresAlone};

use std::alloc::{AllocError, Global};
use tars_model::Schema;

/// The canonical text of a schema.
pub fn print(alloc: Global, schema: &Schema) -> Result<Vec<u8>, AllocError>
    ensures text { IfOk result (λ text. text.items ≡ canonical schema.now) }
    // Its tokens are a file, which has no fault and declares what the schema does.
    ensures reads_back { IfOk result (λ text. DeclaresAlone text.items schema.now) }
{
    canonical_text::print(alloc, schema)
}
