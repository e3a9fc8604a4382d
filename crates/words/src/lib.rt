// What a command line needs of the system: the arguments, a line of standard input, and text that is gathered before it is written. (The words of a
// line are in crate lines.) Knows nothing of radio.
#![tactic(auto)]

pub mod arguments; // arguments.rt: the arguments as a line
pub mod line; // line.rt: a line read from standard input
pub mod text; // text.rt: text on its way out
