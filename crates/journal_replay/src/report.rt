//! What a replay reports.

/// What a replay reports of a journal whose entries are a legal history.
#[derive(Clone, Copy, Debug, PartialEq, Eq, Drop)]
pub enum ReplayReport {
    /// The line of its judgement, which has how many entries there are.
    Judgement,
    /// The sessions that live behind it at a moment, a line each, and how many they are.
    Sessions {
        /// The moment, in milliseconds.
        moment: u64,
    },
}
