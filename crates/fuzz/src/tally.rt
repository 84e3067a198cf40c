//! How the rounds of a kind ended.

/// How many rounds of a kind there were, how many of the texts were good, and in how many rounds an answer differed.
#[derive(Drop)]
pub struct Tally {
    kind: &'static str,
    /// What becomes of a text that is good: it is read, say.
    word: &'static str,
    rounds: u64,
    good: u64,
    differing: u64,
}

/// One of two words: whether there were any.
fn some_or_none(count: u64) -> &'static str {
    if count == 0 { "none" } else { "some" }
}

impl Tally {
    /// No round yet.
    pub fn new(kind: &'static str, word: &'static str) -> Tally {
        Tally {
            kind,
            word,
            rounds: 0,
            good: 0,
            differing: 0,
        }
    }

    /// A round in which the text was good, or not, and in which all answers agreed, or not.
    pub fn count(&mut self, is_good: bool, agreed: bool) {
        self.rounds = self.rounds.saturating_add(1);
        if is_good {
            self.good = self.good.saturating_add(1);
        }
        if !agreed {
            self.differing = self.differing.saturating_add(1);
        }
    }

    /// Puts the line on this kind behind a text.
    pub fn tell(&self, out: &mut String) {
        let Tally {
            kind,
            word,
            rounds,
            good,
            differing,
        } = self;
        let refused = some_or_none(rounds.saturating_sub(*good));
        let good = some_or_none(*good);
        let _ = write!(
            out,
            "{kind}: {rounds} changed, {differing} differ; {good} were {word}, {refused} were refused\n"
        );
    }
}
