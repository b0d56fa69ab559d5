//! Maps of words: which units of a metaslab were allocated and freed, in OpenZFS's space map format.
//!
//! A map is a list of words, in blocks of 512. To the layer above, `append` writes exactly the words of one batch of
//! runs after the words that are there (`ok`), leaves them as they were after want of memory (`err`), and cannot fail
//! where there is room (`room`). The whole map then decodes to what it decoded to before, followed by the runs
//! (`again`). `decode` gives exactly the runs that a map's words hold, or the first fault with its place and cause,
//! if memory allows (`ok`, `fault`, `gives`, `refuses`, `never`). `best_size` is exactly the number of words of a
//! side that is written anew.
//!
//! `specs/Layout.antt` says how entries lie in words, `Batches.antt` which entries a batch has, `Reading.antt` what
//! words hold and where they are at fault, and `Replay.antt` what a map says of one unit. The laws are the contracts
//! of the functions in `laws`: words have one reading and never a fault beside it, the last run that covers a unit
//! decides whether it is held, and the condensed words of a metaslab's free runs hold exactly the rest.
#![tactic(auto)]

mod faults;
pub mod laws;
mod places;
mod reading;
mod sizing;
mod writing;

pub use faults::{AppendFault, DecodeFault};
pub use places::{Found, MapKind, Place, Run};
pub use reading::decode;
pub use sizing::best_size;
pub use writing::append;
