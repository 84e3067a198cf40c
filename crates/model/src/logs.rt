//! Laws of the log of blocks, and of what a crash leaves of it.
ghost use Rattle.std.specs.Prelude.{◌≡◌, ◌⊎◌, ℕ, List};
ghost use Rattle.model.specs.Log.{Opens, IsDamaged, OpensToBeginning, IsLogOf};

/// Bytes are a log of some blocks in one way alone, or damaged at one place alone, or neither, and never both.
pub fn one_way_to_open()
    ensures blocks { (bytes : List ℕ) (xs ys : List (List ℕ)) → Opens bytes xs → Opens bytes ys → xs ≡ ys }
    ensures sound { (bytes : List ℕ) (xs : List (List ℕ)) (place : ℕ) → Opens bytes xs → IsDamaged bytes place → ⊥ }
    ensures place { (bytes : List ℕ) (place other : ℕ) → IsDamaged bytes place → IsDamaged bytes other → place ≡ other }
{}

/// What a crash leaves of a log opens to a beginning of the blocks that were on it or were being put onto it, with at
/// least those that were sure.
pub fn crashed_logs()
    ensures { (least : ℕ) (blocks : List (List ℕ)) (bytes : List ℕ) →
        IsLogOf least blocks bytes → OpensToBeginning least blocks bytes }
{}
