//! One gateway for many threads, behind a lock: a call is one event under it, what the call hands is sent
//! outside it, and a reply that is being sent holds its query open by a reference count.
//!
//! - `link`: a link, which counts its faults, and messages sent over it one by one
//! - `memory`: a link in memory, and one that never fails
//! - `held`: a link of which one send is held, as tests of threads need it
//! - `hold`: a reply that is to be sent holds the slot of its request
//! - `lasts`: what was released last
//! - `journal`: the gateway beside the calls that it stands for
//! - `shared`: `Shared`, the journal with the slots of its requests, which a lock goes round
//! - `asking`: a request gets its slot
//! - `telling`: any other call; its replies hold the slots of their requests, and the slots of requests that wait for nothing go
//! - `settling`: the replies of a request are reported
//! - `home`: which shared gateway a lock is of
//! - `tally`: what each caller keeps, by which stored calls are counted over all callers
//! - `locked`: what lies under the lock
//! - `lock`: `TablesLock`, and what takes the lock
//! - `calling`: its `call`, which sends once the lock is free
//! - `refusal`: why a call was refused
//! - `sending`: messages that go on where others were sent
//!
//! The call that makes a script's parts on one gateway, `program`, stands above, in `zq_program`.
#![tactic(auto)]

mod asking;
mod calling;
mod held;
mod hold;
mod home;
mod journal;
mod lasts;
mod link;
mod lock;
mod locked;
mod memory;
mod refusal;
mod sending;
mod settling;
mod shared;
mod tally;
mod telling;

pub use held::{GateLink, is_set};
pub use hold::hold_for;
pub use home::Home;
pub use journal::Journal;
pub use lasts::LastList;
pub use link::{Link, send_all};
pub use lock::TablesLock;
pub use memory::{MemoryLink, SureLink};
pub use refusal::CallRefusal;
pub use sending::{send_final, send_on};
pub use shared::{Shared, StepRefusal, Stepped};
pub use tally::Tally;
pub use zq_hold::{HoldSeat, NoSlot, SeatList, Slot, SlotList};
pub use zq_io::streams::Failed;
