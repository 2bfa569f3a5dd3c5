/// What a script is loaded for.
#[derive(Clone, Copy, PartialEq, Eq)]
pub enum Mode {
    /// To be run at once, with all its ends in memory.
    Plan,
}
