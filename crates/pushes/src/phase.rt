// What a pass over the records of a push does with each of them.

#[derive(Clone, Copy)]
pub enum Phase {
    // its place and leaf are tested
    Test,
    // its leaf is written, and the nodes above it are marked
    Mark,
    // the node over its place is rewritten, on the level of the tally's numbers
    Level,
    // its place is noted in the map of this window
    Search(u64),
}
