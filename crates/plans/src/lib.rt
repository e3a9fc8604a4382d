// Plan files: lists of addresses that other firms make, each with its parameter set. How many plans a file has, whether a plan is L of its set, the file of
// our own lists, and where two files differ. Every input is tested inside. Plans are counted from 1, positions from 0.
#![tactic(auto)]

pub mod differing; // differing.rt: where two files differ
pub mod judging; // judging.rt: a plan's list beside L
pub mod writing; // writing.rt: a file of our own

// L is walked in pieces of so many addresses.
pub const PIECE: usize = 512;
