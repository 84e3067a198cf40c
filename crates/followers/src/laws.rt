//! What the lengths mean.

ghost use Rattle.followers.specs.Standing.{LengthsStandFor};

/// The lengths stand for the followers of the definitions, each of two whole chains: whatever these are, each call does
/// with the lengths what the definitions do with the chains.
pub fn lengths_stand_for_followers()
    ensures { LengthsStandFor }
{}
