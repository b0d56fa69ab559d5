//! Laws of the definitions: each function does nothing, and its contract is the law.

ghost use Rattle.meta_store.specs.Laws.{FoundIsCertain, CauseIsCertain, OpensWithoutCause};

/// What a group of a device finds is certain.
pub fn found_is_certain()
    ensures { FoundIsCertain }
{}

/// A device shows one cause why it does not open, and none where it opens.
pub fn cause_is_certain()
    ensures one { CauseIsCertain }
    ensures none { OpensWithoutCause }
{}
