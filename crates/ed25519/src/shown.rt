//! A secret key, as it is shown.

use crate::secret_key::SecretKey;
use std::fmt;

impl fmt::Debug for SecretKey {
    /// Writes that it is a secret key, and nothing of it.
    fn fmt<W: fmt::Write>(&self, f: &mut fmt::Formatter<W>) -> fmt::Result {
        f.debug_struct("SecretKey").finish_non_exhaustive()
    }
}
