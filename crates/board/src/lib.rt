// A departure board: what its question answers. The board is defined in specs/Board; the code stands in the crates above.
#![tactic(auto)]

// How many departures a board lists, or the number of the refusal and the words needed (0 unless 29).
#[derive(Clone, Copy)]
pub enum BoardAnswer {
    Listed(usize),
    Refused { number: u32, needed: usize },
}
