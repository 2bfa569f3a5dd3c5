use tars_model::Bytes8;

/// An entry of a `map<string, string>`.
#[derive(Drop)]
pub struct TextPair {
    pub key: Bytes8,
    pub value: Bytes8,
}
