use stair_base::CellSet;

/// What is to be done again: these cells of this stripe, from the journal's body.
#[derive(Clone, Copy, Debug, PartialEq, Eq)]
pub struct Redo {
    pub stripe: u32,
    pub cells: CellSet,
}
