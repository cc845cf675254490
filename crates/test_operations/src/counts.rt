//! What a run of operations counted.

/// The result of a run.
#[derive(Clone, Copy, Default)]
pub struct Told {
    pub differs: bool,
    pub episodes: u32,
    /// The operations of the last commit of the episode.
    pub committed: u32,
    pub commits: u32,
    pub changed: u32,
    pub skipped: u32,
    /// Operations that were refused, those accepted after a commit, and those still refused then.
    pub refused: u32,
    pub again: u32,
    pub twice: u32,
    /// Commits that were refused.
    pub full: u32,
    /// The number of images that the slow checker read.
    pub images: u32,
}
