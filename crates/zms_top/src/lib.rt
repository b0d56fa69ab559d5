//! The calls of the program: a pool is created, reported, and a run's commands are answered over it.
//!
//! What a call promises is the contract of `zms`: how it ends, each way with its cause (`specs/Causes.antt`), and for
//! a run that each reply is backed by the journals of the metaslab and of the gate, that both are legal, that what
//! was printed is the text of the replies and of the journal's totals, that what was then traced is the text of the
//! journals (`specs/Ends.antt`), and what each stop leaves of the device, in every ending (`IsAtEveryStop`,
//! `specs/Stored.antt`): from the moment on at which the opened group was the only one each image opens at its newest
//! group and at those at most two below it, and finds there exactly the units that the group holds by the journal; and
//! at return it has at least the last synced group.
//!
//! Below it stand the words (`read_words`: `asks`, `nothing`, `only`), the command file (`read_commands`: `file`,
//! `bad`, `only_bad`, `only_file`), the store (`meta_store`), the pool that is opened with it (`open`: `opened`, `err`), the
//! commands (`alloc`: `acted`, `learns`; `free`: `acted`, `leaves`; `sync`: `acted`, `remembered`, `intervals`), the names
//! of the lane's blocks (`find_block`, `add_block`, over `AreNamed`), the lane (`run_lane`: `ran`, `remembered`), the
//! printing (`write_run`), and the trace (`trace_journals`: `traces`, `stops`). The text of a status and its exit status
//! are exactly those of `specs/Statuses.antt`.
#![tactic(auto)]

mod allocs;
mod blocks;
mod frees;
mod lane;
mod look;
mod output;
mod pool;
mod pool_report;
mod refusals;
mod replies;
mod report;
mod run;
mod script;
mod status;
mod syncs;
mod tally;
mod top;
mod words;

pub use replies::{Answer, Reply};
pub use status::{PoolCause, RunLists, Shipped, Status};
pub use top::{zms, zms_still};
pub use words::{Asked, pool_name, read_words};
