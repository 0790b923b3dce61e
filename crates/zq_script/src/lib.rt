//! Scripts of calls, the generated load, and the call that runs either.
//!
//! - `head`: the lines before the calls.
//! - `script`: a whole script: its head, and its calls in parts.
//! - `refusal`: why bytes are no script.
//! - `printing`: the print of a script, made while its lines are read.
//! - `running`: reads a script from a source, and gives the print of its steps to a sink.
//! - `bad`: the bad lines of a script, and why they are bad.
//! - `checking`: reads a script from a source, and gives its bad lines to a sink.
//! - `conversation`: a gateway that is spoken to by lines.
//! - `reading`: lines that are read from a source one after another.
//! - `live`: answers each line of a source at once.
//!
//! What users of scripts need of words, streams, lines and prints is passed on here.
#![tactic(auto)]

pub mod bad;
mod checking;
pub mod conversation;
pub mod head;
pub mod live;
mod load;
mod printing;
pub mod reading;
pub mod refusal;
pub mod running;
pub mod script;

pub use checking::check;
pub use load::{Counts, load_config, print_load};
pub use refusal::ScriptRefusal;
pub use running::{RunOutcome, Status, run, run_outcome};
pub use script::{PartList, Script, read_script};
pub use zq_io::stored::{MemorySink, MemorySource, SureSink, SureSource};
pub use zq_io::streams::{Failed, ReadSource, Sink, Source, WriteSink};
pub use zq_io::transfer::{LIMIT, ReadRefusal, WriteFault, read_all, write_all};
pub use zq_io::words::{print_word, read_word};
pub use zq_lines::calls::print_call;
pub use zq_lines::steps::{print_message, print_steps};
