//! How the vectors of a file come out.

use std::fmt;

/// A kind of vectors.
#[derive(Clone, Copy)]
pub enum Kind {
    /// Secret keys with their public keys and what they sign.
    Signed,
    /// Signatures that are good.
    Good,
    /// Signatures that are refused.
    Bad,
    /// Bits, each of which makes a good signature one that is refused.
    Flipped,
    /// Secret keys and messages at random, each of whose signatures is good.
    Random,
}

/// How many vectors of each kind a file has, in how many lines they come out otherwise, and in which one first.
#[derive(Clone, Copy)]
pub struct Tally {
    lines: u64,
    signed: u64,
    good: u64,
    bad: u64,
    flipped: u64,
    random: u64,
    differing: u64,
    first_differing: u64,
}

impl Tally {
    /// None yet.
    pub fn new() -> Tally {
        Tally {
            lines: 0,
            signed: 0,
            good: 0,
            bad: 0,
            flipped: 0,
            random: 0,
            differing: 0,
            first_differing: 0,
        }
    }

    /// Counts a line.
    pub fn begin_line(&mut self) {
        self.lines = self.lines.saturating_add(1);
    }

    /// Counts `number` vectors of a kind.
    pub fn count(&mut self, kind: Kind, number: u64) {
        let count = match kind {
            Kind::Signed => &mut self.signed,
            Kind::Good => &mut self.good,
            Kind::Bad => &mut self.bad,
            Kind::Flipped => &mut self.flipped,
            Kind::Random => &mut self.random,
        };
        *count = count.saturating_add(number);
    }

    /// Notes that the line that was begun last is no vector, or comes out otherwise.
    pub fn differ(&mut self) {
        if self.differing == 0 {
            self.first_differing = self.lines;
        }
        self.differing = self.differing.saturating_add(1);
    }

    /// Whether there are vectors and none comes out otherwise.
    pub fn is_well(&self) -> bool {
        let all = [self.signed, self.good, self.bad, self.flipped, self.random];
        self.differing == 0 && all != [0; 5]
    }
}

impl fmt::Display for Tally {
    fn fmt<W: fmt::Write>(&self, f: &mut fmt::Formatter<W>) -> fmt::Result {
        let Tally {
            signed,
            good,
            bad,
            flipped,
            random,
            differing,
            first_differing,
            ..
        } = *self;
        write!(
            f,
            "{signed} signed, {good} good, {bad} bad, {flipped} bits flipped, {random} random; {differing} differ"
        )?;
        if differing > 0 {
            write!(f, ", first in line {first_differing}")?;
        }
        Ok(())
    }
}
