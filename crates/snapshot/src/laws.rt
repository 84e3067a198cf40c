//! What is said of the texts of states, as a whole.

ghost use Rattle.snapshot.specs.Laws.{EachHasOneText, EachIsOneSnapshot, EachHasAText, EndsOfChains};

/// A state has no more than one list of parts.
pub fn each_has_one_text()
    ensures { EachHasOneText }
{}

/// Parts are those of one state at most: where it ends, the fees, the digest and each output at its input are told by
/// them.
pub fn each_is_one_snapshot()
    ensures { EachIsOneSnapshot }
{}

/// A state where a chain may end, whose numbers are in range, of which no output is longer than a part may be, has a
/// list of parts.
pub fn each_has_a_text()
    ensures { EachHasAText }
{}

/// A valid chain whose blocks are in range ends where a text may say that one ends, and its state holds as much
/// lovelace as the genesis granted: so a reader refuses no such state for its end or its lovelace.
pub fn ends_of_chains()
    ensures { EndsOfChains }
{}
