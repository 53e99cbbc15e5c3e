//! The words of a script: how a text is cut, numbers, names and data, and the call that a verb and the words behind it
//! stand for.
#![tactic(auto)]

mod arguments;
mod blocks;
mod cause;
mod cut;
mod fault;
mod line_words;
mod marks;
mod spelling;
mod verbs;
mod words;

pub use arguments::{number_32, small_number};
pub use cause::Cause;
pub use cut::cut_at;
pub use fault::LineFault;
pub use line_words::cut_line;
pub use marks::find_near;
pub use spelling::each_step_is_read;
pub use verbs::step_of;
pub use words::is_name_word;
