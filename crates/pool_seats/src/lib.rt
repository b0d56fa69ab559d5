//! How the lanes of a pool get their passes, and how the pool is closed behind them.
//!
//! To the layer above: `prepare` makes the cells and classes of a store, and hands out their rights: right 0 to the keeper, one
//! to each lane, and the rest to nobody. `keep` puts the keeper under its turn, and `take_seats` gives each lane its pass there
//! too. From then on no call takes memory: `join_seat` gets back what a lane owned, and `close_pool` ends every turn, whatever
//! became of the lanes, and hands out the gate, the metaslabs, the class journals, the keeper's journal and its store, with all
//! notes that the rights of the joined passes need (`specs/Closing.antt`). What a lane does between is not its part.
#![tactic(auto)]

mod closing;
mod joining;
mod keeping;
mod opening;
mod pool;
mod seats;
mod weights;

pub use closing::{Closed, close_pool};
pub use joining::join_seat;
pub use keeping::{Kept, keep};
pub use opening::{Prepared, prepare};
pub use pool::{Pool, PoolKeeper, Rest, Seat};
pub use seats::take_seats;
