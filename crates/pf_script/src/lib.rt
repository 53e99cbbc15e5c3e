//! Scripts: the grammar of the calls and the text of their answers. A script is read from any reader, and the answers
//! to its steps are printed to any writer; where there are none, a line that says why.
#![tactic(auto)]

mod adapters;
mod answers;
mod count;
mod digits;
mod fault;
mod judge;
mod laws;
mod line;
mod memory;
mod notice;
mod port;
mod printer;
mod read;
mod refusal;
mod script;
mod steps;
mod text;
mod told;
mod transcript;

pub use adapters::{Reading, Writing};
pub use fault::ScriptFault;
pub use laws::each_step_has_a_line;
pub use line::Line;
pub use memory::{Collected, MemoryBytes};
pub use notice::{Notice, print_notice};
pub use pf_words::Cause;
pub use port::{Failed, INPUT_LIMIT, Sink, Source, WriteFault, write_out};
pub use read::read_script;
pub use refusal::{Refusal, first_fault_decides};
pub use script::Script;
pub use told::Told;
pub use transcript::{print, print_apart, print_told};
