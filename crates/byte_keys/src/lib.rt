//! Maps whose keys are read as bytes: what is at a key, and what an insertion changes, in terms of the key's
//! bytes alone. It has definitions and lemmas, and no code.
#![tactic(auto)]
