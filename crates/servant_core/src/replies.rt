use tars_model::{List, Value};

/// What a servant replies to a call.
#[derive(Drop)]
pub enum Reply {
    /// What the function returns, if it returns anything, and then its out parameters.
    Values(List<Value>),
    /// A return code other than 0.
    Code(i32),
    /// No response is sent.
    Silent,
}
