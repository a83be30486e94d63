//! What a run over a keeper answers.

/// The status of a run, and the keeper that it was given.
#[derive(Debug, Drop)]
pub struct Ran<K> {
    /// The status.
    pub status: u8,
    /// The keeper, as the run left it.
    pub keeper: K,
}
