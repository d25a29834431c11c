// A replacement record.

// A place, and room for a leaf of up to six words: the first l are read.
#[derive(Clone, Copy)]
pub struct Record {
    pub place: u64,
    pub words: [u64; 6],
}
