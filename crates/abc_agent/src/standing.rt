/// How an agent stands to the numbers.
#[derive(Clone, Copy, Drop)]
pub(crate) enum Standing {
    /// It has not asked for one.
    NotAsking,
    /// It has asked, and has no answer.
    HasAsked,
    /// This number is its own.
    HasNumber(u32),
    /// There is none left for it.
    FoundClosed,
}
