//! What holds of every run inside a namespace.
ghost use Rattle.zq_moved.specs.Inside.{MovesTwice, MovesUnnoticed, NestsUnnoticed};

/// Calls that can be moved are answered in a namespace as in none, and each face receives the same.
pub fn moves_unnoticed()
    ensures { MovesUnnoticed }
{}

/// Moving calls twice, into a namespace and then under a prefix, is moving them once, into the namespace behind the prefix.
pub fn moves_twice()
    ensures { MovesTwice }
{}

/// A run that was moved into a namespace may be moved under a prefix: it is answered as before, and each face receives the same.
pub fn nests_unnoticed()
    ensures { NestsUnnoticed }
{}
