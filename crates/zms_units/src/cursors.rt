ghost use Rattle.std.specs.Prelude.{◌≡◌, ◌<◌, ◌≤◌};
ghost use Rattle.zms_units.specs.Cursors.{cursor_of};

use crate::{CURSORS, MAX_UNITS};

/// Which of a metaslab's cursors a request of so many units looks on from: that of the count's lowest set bit, as
/// `metaslab_df_alloc` has one in `ms_lbas` for each alignment.
#[tactic(auto, using(crate::proofs::CursorPlaces::cursor_below))]
pub fn cursor_place(count: u32) -> usize
    requires { (1 ≤ count) × (count ≤ MAX_UNITS) }
    ensures place { result ≡ cursor_of count }
    ensures bound { result < CURSORS }
{
    count.trailing_zeros() as usize
}
