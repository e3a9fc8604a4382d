// The calls for C and Rust: a parameter set is its numbers in a row, an answer is 0 or the number of a refusal (but for `interleaver_fitting`, which gives a
// size), and what else a call says goes through its out-parameters, which a refused call leaves as they are. Nothing is decided here.
// (Each call has its contract again as the crate below it has it, and each way and each kind of symbol a call of its own: C links a function by its name,
// and the name has to promise what it does.)
#![tactic(auto)]

pub mod gateways; // gateways.rt: several byte machines in one store
pub mod lists; // lists.rt: the test of a set, the size that would have fitted, LTE's own factors, addresses, walks
pub mod report; // report.rt: the padding report of WCDMA's turbo interleaver
pub mod moves; // moves.rt: whole blocks
pub mod sums; // sums.rt: receptions added up
pub mod plan_files; // plan_files.rt: plan files
pub mod machines; // machines.rt: the byte streams
