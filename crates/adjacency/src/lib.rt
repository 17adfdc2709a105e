// A graph's adjacency lists in two arrays, where the blocks start and the neighbours in a row, and rules 6 and 8 over
// them.
#![tactic(auto)]

pub mod lists; // lists.rt: adjacency lists in two arrays
pub mod cells; // cells.rt: cells of 16 bits
pub mod strays; // strays.rt: rule 6
pub mod reverse; // reverse.rt: rules 6 and 8 at once
