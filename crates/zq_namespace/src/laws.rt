//! What follows from the definitions, as the contracts of calls.
ghost use Rattle.zq_namespace.specs.Laws.{EndsFollow, LeavesWithin};

/// What leaves of a message on a key, put behind the namespace again, is within the key. Of a plain key it
/// is all that follows the namespace, so nothing leaves of one that is not under it.
pub fn leaves_within()
    ensures { LeavesWithin }
{}

/// What ends a key's number, a queryable or an interest leaves exactly if that did, and then nothing of it is
/// kept any more, where it was not kept before.
pub fn ends_follow()
    ensures { EndsFollow }
{}
