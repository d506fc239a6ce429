// What the programs share: their arguments, the bytes of a file or of standard input, bytes put down in a file, and answers as text.
#![tactic(auto)]

mod answers;
mod arguments;
mod input;
mod opening;
mod paths;
mod reasons;
mod saving;
mod source;

pub use crate::answers::{print_answer, print_failure, print_file, print_name};
pub use crate::arguments::{argument, named_argument};
pub use crate::input::{Broken, read_input};
pub use crate::paths::hide_controls;
pub use crate::reasons::fail;
pub use crate::saving::save;
pub use crate::source::{Source, read_source};
