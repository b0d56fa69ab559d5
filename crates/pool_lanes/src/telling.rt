//! What a closed pool hands out.
ghost use Rattle.std.specs.Prelude.{◌≡◌, ◌≤◌, [], length, vec_capacity};
ghost use Rattle.turn_passes.specs.Pairs.{Each};
ghost use Rattle.pool_lanes.specs.Lanes.{IsJournalOf, IsCountOf};

use ms_core::{Counts, Metaslab};
use ms_model::MsJournal;
use range_tree::RangeTrees;

/// The journal and the counts of each metaslab, in order, into lists that have room for them.
pub(crate) fn tell_metaslabs(
    metaslabs: Vec<Metaslab<RangeTrees>>,
    journals: Vec<MsJournal>,
    totals: Vec<Counts>,
) -> (Vec<MsJournal>, Vec<Counts>)
    requires journals { (journals.items ≡ []) × (length metaslabs.items ≤ vec_capacity journals) }
    requires totals { (totals.items ≡ []) × (length metaslabs.items ≤ vec_capacity totals) }
    ensures journals { Each (λ k m j. IsJournalOf m j) metaslabs.items result.0.items }
    ensures totals { Each (λ k m c. IsCountOf m c) metaslabs.items result.1.items }
    ensures counts { (length result.0.items ≡ length metaslabs.items) × (length result.1.items ≡ length metaslabs.items) }
{
    let mut journals = journals;
    let mut totals = totals;
    for metaslab in metaslabs {
        totals.push_reserved(metaslab.counts());
        journals.push_reserved(metaslab.into_journal());
    }
    (journals, totals)
}
