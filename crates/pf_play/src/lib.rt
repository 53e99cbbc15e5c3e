//! The replayer: a script is read and judged, its lines are run, and the text of the answers is written.
#![tactic(auto)]

mod answered;
mod command_line;
mod engine;
pub mod laws;
mod program;
mod run;
mod run_threads;
mod threads;
mod trees;
mod turns;

pub use engine::{Options, frames_of};
pub use pf_script::{Collected, Failed, INPUT_LIMIT, MemoryBytes, Reading, Sink, Source, Writing};
pub use pf_worker::{Gate, NoGate};
pub use program::{Status, obey, run_program};
pub use run::{ReplayFault, Replayed, replay};
pub use run_threads::replay_threads;
