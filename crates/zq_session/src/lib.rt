//! The run of a script with all faces in one namespace, and the print of what each face receives there.
//!
//! - `inside`: the run of moved calls
//! - `session`: scripts whose calls can be moved, and the print
//! - `running`: reads a script from a source, and gives the print to a sink
//!
//! What users of such runs need of scripts and moved calls is passed on here.
#![tactic(auto)]

pub mod inside;
pub mod running;
pub mod session;

pub use inside::replay_in;
pub use running::session_run;
pub use session::{print_inside, read_session};
pub use zq_moved::{MessageList, can_move, moved, received};
pub use zq_script::{MemorySink, MemorySource, ReadSource, ScriptRefusal, Status, WriteSink};
