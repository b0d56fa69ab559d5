//! Laws of the definitions: each function does nothing, and its contract is the law.

ghost use Rattle.copy_walk.specs.Laws.{NextsAreOne, StepsStayInClass, FirstPicksAreActive, LastLooksAreNew, EndsMissNone, EndsCountEach};

/// One thing comes next.
pub fn nexts_are_one()
    ensures { NextsAreOne }
{}

/// Each pick is on a vdev of the class, and each look at a metaslab of it.
pub fn steps_stay_in_class()
    ensures { StepsStayInClass }
{}

/// The first pick on each vdev begins at the active metaslab.
pub fn first_picks_are_active()
    ensures { FirstPicksAreActive }
{}

/// A look of the last round is at a metaslab at which none failed.
pub fn last_looks_are_new()
    ensures { LastLooksAreNew }
{}

/// Where there is nothing left, a look failed at each metaslab of the class.
pub fn ends_miss_none()
    ensures { EndsMissNone }
{}

/// And as many metaslabs failed as the class has.
pub fn ends_count_each()
    ensures { EndsCountEach }
{}
