// The calls of a way on what is lent: a parameter set is its numbers in a row, and what else a call says goes through its out-parameters, which
// a refused call leaves as they are. The calls for C name the way; nothing is decided in either.
#![tactic(auto)]

pub mod lists; // lists.rt: one address, a list of addresses
pub mod moves; // moves.rt: whole blocks
pub mod machines; // machines.rt: the byte streams
