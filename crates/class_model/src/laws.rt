//! Laws of the definitions: each function does nothing, and its contract is the law.

ghost use Rattle.class_model.specs.Laws.{AnswersAreOne, MetaslabsHaveOnePair, ActiveAreMetaslabs, PicksAreMetaslabs, RotorsAreVdevs, WalksVisitOnce, BeginningsAreLegal};

/// A pick has at most one answer.
pub fn answers_are_one()
    ensures { AnswersAreOne }
{}

/// In a legal journal a metaslab is active for at most one pair of allocator and kind. That a pair has at most one active
/// metaslab a vdev is so by definition.
pub fn metaslabs_have_one_pair()
    ensures { MetaslabsHaveOnePair }
{}

/// In a legal journal what is active for a pair is a metaslab of the vdev, and so is what a pick gives.
pub fn picks_are_metaslabs()
    ensures active { ActiveAreMetaslabs }
    ensures picks { PicksAreMetaslabs }
{}

/// The rotor is at a vdev of the class, where it has any.
pub fn rotors_are_vdevs()
    ensures { RotorsAreVdevs }
{}

/// A walk over a vdev from its top goes down in falling order, visits each metaslab at most once, and so has no more
/// steps than the vdev has metaslabs.
pub fn walks_visit_once()
    ensures { WalksVisitOnce }
{}

/// What stands before a note of a legal journal is a legal journal.
pub fn beginnings_are_legal()
    ensures { BeginningsAreLegal }
{}
