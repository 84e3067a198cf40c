//! Laws of reading.

ghost use Rattle.std.specs.Prelude.{◌≡◌, ◌≢◌, ◌⊎◌, ◌<◌, ℕ, List};
ghost use Rattle.std.specs.List.{AllByRecursion};
ghost use Rattle.model.specs.Block.{Block};
ghost use Rattle.block.specs.Read.{IsRead, IsReadFault};
ghost use Rattle.block.specs.declared.fault.ReadFault.{ReadFault};
ghost use Rattle.block.specs.declared.fault.ReadFault.TheVariants.{OutOfMemory};

/// Bytes have one answer, except where memory runs out: they are read as at most one block, there is at most one fault,
/// and not both. And there is one, whatever the bytes.
pub fn one_answer()
    ensures one_block { (bytes : List ℕ) (a b : Block) → IsRead a bytes → IsRead b bytes → a ≡ b }
    ensures one_fault { (bytes : List ℕ) (e f : ReadFault) → IsReadFault bytes e → IsReadFault bytes f →
        e ≢ OutOfMemory → f ≢ OutOfMemory → e ≡ f }
    ensures apart { (bytes : List ℕ) (b : Block) (e : ReadFault) → IsRead b bytes → IsReadFault bytes e →
        e ≡ OutOfMemory }
    ensures some { (bytes : List ℕ) → AllByRecursion (λ b. b < 256) bytes →
        ((b : Block) × IsRead b bytes) ⊎ ((e : ReadFault) × (e ≢ OutOfMemory) × IsReadFault bytes e) }
{}
