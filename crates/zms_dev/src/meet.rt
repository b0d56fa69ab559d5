// Where the lanes of a run meet.

/// What a lane does between two of its commands, so that a test can order the lanes. It changes no answer.
pub trait Meet {
    /// Called once before each command of the lane.
    fn here(&self, lane: u8);
}
