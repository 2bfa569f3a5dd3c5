//! The table of calls that were opened, as the engine uses it.

ghost use Rattle.std.specs.Prelude.{◌≡◌, ◌<◌, ◌++◌, suc, List, [], ◌∷◌, length, map, option_map, IfOk, OnOk};
ghost use Rattle.std.specs.List.{AllByRecursion, list_any};
ghost use Rattle.run_course.specs.Courses.{closed};
ghost use Rattle.script_session.specs.Judged.{IDS};
ghost use Rattle.run_engine.specs.Claims.{Claim, FateFits, MayFit, is_full, opened_claim, is_open_claim, settled_claims, ended, fate_of, told};

use crate::fate::Fate;
use std::alloc::{AllocError, Global};

/// A table of calls. All that is said of it is said of the calls that were opened in it so far.
pub(crate) trait Claims {
    /// These calls were opened so far, in this order, and are so now.
    ghost IsOf: { Self → List Claim → Type 0 };

    /// Whether as many calls of the line as its width are in flight.
    fn is_full(&self, line: u32) -> bool
        requires line { line ≡ 1 }
        ensures { (claims : List Claim) → IsOf self.now claims → result ≡ is_full line claims };

    /// Opens a call of the line, and returns the next id.
    fn open_call(&mut self, line: u32, node: u32, deadline: u32) -> Result<u32, AllocError>
        requires line { line ≡ 1 }
        requires ids { (claims : List Claim) × IsOf self.old claims × (suc (length claims) < IDS) }
        ensures id { (claims : List Claim) → IsOf self.old claims → IfOk result (λ id. id ≡ suc (length claims)) }
        ensures opened { (claims : List Claim) → IsOf self.old claims
            → OnOk result (IsOf self.new (claims ++ opened_claim claims line node deadline ∷ [])) };

    /// Ends the call that is open under an id, and tells whether there was one.
    fn settle(&mut self, id: u32, fate: Fate) -> bool
        requires fits { FateFits fate }
        ensures was_open { (claims : List Claim) → IsOf self.old claims → result ≡ list_any (is_open_claim id) claims }
        ensures settled { (claims : List Claim) → IsOf self.old claims → IsOf self.new (settled_claims id (told fate) claims) };

    /// Ends each call that is open.
    fn close(&mut self)
        ensures { (claims : List Claim) → IsOf self.old claims → IsOf self.new (map (ended closed) claims) };

    /// What ended each call.
    fn into_fates(self, alloc: Global) -> Result<Vec<Option<Fate>>, AllocError>
        ensures fates { (claims : List Claim) → IsOf self claims → IfOk result (λ fates. map (option_map told) fates.items ≡ map fate_of claims) }
        ensures fits { (claims : List Claim) → IsOf self claims → IfOk result (λ fates. AllByRecursion MayFit fates.items) };
}
