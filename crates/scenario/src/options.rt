//! How a script is run.

ghost use Rattle.std.specs.Prelude.{◌≡◌, false};

use genesis::Scheme;

/// How a script is run.
#[derive(Clone, Copy, Debug, PartialEq, Eq)]
pub struct Options {
    /// What the script signs it signs by this.
    pub scheme: Scheme,
    /// Whether a line that begins with `# ` tells behind a line that refuses a transaction what the reason is about,
    /// and behind one that puts no block on the chain why the block isn't selected.
    pub explain: bool,
}

impl Options {
    /// A run by this scheme in which nothing is explained.
    pub fn plain(scheme: Scheme) -> Options
        ensures scheme { result.scheme ≡ scheme }
        ensures explain { result.explain ≡ false }
    {
        Options {
            scheme,
            explain: false,
        }
    }
}
