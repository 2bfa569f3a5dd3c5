//! Laws of two versions. The functions do nothing: each is its contract.

ghost use Rattle.std.specs.Prelude.{◌≡◌, true, ℕ, List, Result, IsOkUnless};
ghost use Rattle.tars_model.specs.Declarations.{Declared};
ghost use Rattle.tars_model.specs.Values.{fit_members};
ghost use Rattle.tars_model.specs.declared.member.Member.{Member};
ghost use Rattle.tars_model.specs.declared.value.Value.{Value};
ghost use Rattle.tars_wire.specs.Heads.{MAX_DEPTH};
ghost use Rattle.tars_wire.specs.Spelled.{Spelled};
ghost use Rattle.tars_decode.specs.Reads.{reads};
ghost use Rattle.tars_decode.specs.Decoding.{Answers};
ghost use Rattle.tars_decode.specs.declared.refuse.Refuse.{Refuse};
ghost use Rattle.tars_codec.specs.Written.{fields_of};
ghost use Rattle.tars_model.specs.Schemas.{IsSchema, IsTypeIn};
ghost use Rattle.tars_model.specs.declared.ty.Ty.{Ty, out-Ty};
ghost use Rattle.tars_versions.specs.Agreement.{agree, agree_by, agrees, versions_agree, IsVersion};
ghost use Rattle.tars_versions.specs.Decoded.{IsWritten, IsDecoded};
ghost use Rattle.tars_versions.specs.Projected.{project_members};

/// What a reader of one version takes for the values of another is their projection.
#[tactic(auto, using(crate::proofs::Projection::reads_projects, crate::proofs::Projection::decoded_projects, crate::proofs::WrittenBytes::written_projects))]
pub fn decoding_projects()
    // The fields that are written for old values say the projection under new members.
    ensures reads { (old : Declared) (old_members : List Member) (values : List Value) (new : Declared) (new_members : List Member) → fit_members old old_members values ≡ true → reads new new_members (fields_of old old_members values) ≡ project_members old old_members values new new_members }
    // So bytes that spell these fields are decoded to it.
    ensures decoded { (old : Declared) (old_members : List Member) (values : List Value) (new : Declared) (new_members : List Member) (bytes : List ℕ) (result : Result (List Value) Refuse) → fit_members old old_members values ≡ true → Spelled MAX_DEPTH bytes (fields_of old old_members values) → IsDecoded bytes new new_members result → Answers result (project_members old old_members values new new_members) }
    // And what `encode` writes for old values is decoded to it.
    ensures written { (old : Declared) (old_members : List Member) (values : List Value) (new : Declared) (new_members : List Member) (bytes : List ℕ) (result : Result (List Value) Refuse) → IsWritten old old_members values bytes → IsDecoded bytes new new_members result → Answers result (project_members old old_members values new new_members) }
{}

/// Where versions agree, a reader of the new one refuses nothing that is written for values of the old one.
#[tactic(auto, using(crate::proofs::WrittenBytes::agreeing_are_read))]
pub fn agreement_refuses_nothing()
    ensures { (old : Declared) (old_members : List Member) (values : List Value) (new : Declared) (new_members : List Member) (bytes : List ℕ) (result : Result (List Value) Refuse) → IsSchema new → IsVersion new new_members → versions_agree old old_members new new_members ≡ agree → IsWritten old old_members values bytes → IsDecoded bytes new new_members result → IsOkUnless result Refuse.Memory }
{}

/// Agreement follows its rules: how types agree is told by how those inside them do. (`agrees` counts levels; no type of
/// a schema has more of them.)
#[tactic(auto, using(crate::proofs::Levels::agreement_by_rules))]
pub fn agreement_follows_rules()
    ensures { (old new : Declared) (old_type new_type : Ty) → IsSchema old → IsTypeIn old old_type → agrees old new old_type new_type ≡ agree_by (agrees old new) old new (out-Ty old_type) (out-Ty new_type) }
{}
