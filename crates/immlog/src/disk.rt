//! A disk, as the log sees it.

ghost use Rattle.std.specs.Prelude.{◌≡◌, ℕ, ◌+◌, ◌^◌, ◌<◌, ◌≤◌, Bool, true, List, [], ◌∷◌, length, take};
ghost use Rattle.std.specs.Prelude.{IfOk, OnOk, OnErr};
ghost use Rattle.model.specs.Disk.{Moment, settled, Stays, MayLeave, IsGiven, IsWritten, IsTouched, IsCounted};

use thiserror::Error;

/// The disk failed.
#[derive(Clone, Copy, Debug, PartialEq, Eq, Error)]
#[error("the disk failed")]
pub struct DiskFailed;

/// A disk of fewer than 2^63 bytes. Where everything stops at a moment, what stands on it afterwards may be any bytes
/// in each range that was written or cut since the last sync that succeeded, and past the end as it was then; all other
/// bytes are as that sync left them. A write or a cut that failed may have been made, in part or not at all. Nothing is
/// said of time. No call takes memory: what fails is the disk.
pub trait Disk {
    /// What a read gives now, from the first byte to the last.
    ghost reads: { Self → List ℕ };

    /// What a crash now may leave.
    ghost moment: { Self → Moment };

    /// The moments that have gone by, the newest first.
    ghost past: { Self → List Moment };

    /// How often the disk has failed, counted in 64 bits.
    ghost failures: { Self → ℕ };

    /// Whether such a disk fetches just what a read gives: one in memory may say so, of a file nobody can.
    ghost keeps: { Bool };

    /// Reads from a place on, and answers how many bytes it gave: fewer than there is room for only at the end. Err
    /// where the disk failed, or can't tell any more what it holds, as one that was changed since it was opened; what
    /// stands in the room for the bytes is then not said.
    fn read(&mut self, place: usize, into: &mut [u8]) -> Result<usize, DiskFailed>
        ensures given { IfOk result (IsGiven (reads self.old) place into.old into.new) }
        ensures same { reads self.new ≡ reads self.old }
        ensures still { moment self.new ≡ moment self.old }
        ensures clock { past self.new ≡ past self.old }
        ensures failures { IsCounted (failures self.old) (failures self.new) result };

    /// Reads from a place on what now stands there, and answers how many bytes it gave. Of a disk that doesn't keep
    /// what it holds nothing is promised of them. Err where the disk failed.
    fn fetch(&mut self, place: usize, into: &mut [u8]) -> Result<usize, DiskFailed>
        ensures within { IfOk result (λ count. count ≤ length into.old) }
        ensures given { keeps ≡ true → IfOk result (IsGiven (reads self.old) place into.old into.new) }
        ensures same { reads self.new ≡ reads self.old }
        ensures still { moment self.new ≡ moment self.old }
        ensures clock { past self.new ≡ past self.old }
        ensures failures { IsCounted (failures self.old) (failures self.new) result };

    /// Writes over what stands from a place on, and past the end. Err where the disk failed, or where it would hold too
    /// much; any bytes may then stand in the range, and past the old end.
    fn write_at(&mut self, place: usize, bytes: &[u8]) -> Result<(), DiskFailed>
        requires { place ≤ length (reads self.old) }
        ensures written { OnOk result (IsWritten (reads self.old) place bytes.now (reads self.new)) }
        ensures failed { OnErr result (Stays ((place, place + length bytes.now) ∷ []) (reads self.old)
            (reads self.new)) }
        ensures time { IsTouched place (place + length bytes.now) (moment self.old) (past self.old) (moment self.new)
            (past self.new) }
        ensures failures { IsCounted (failures self.old) (failures self.new) result };

    /// Writes as [`Disk::write_at`] does, as well as may be: nobody is told whether it was done. So a gate is closed
    /// again whose sync failed, since a system may go on to read back what it has failed to make sure.
    fn put_back(&mut self, place: usize, bytes: &[u8])
        requires { place ≤ length (reads self.old) }
        ensures stays { Stays ((place, place + length bytes.now) ∷ []) (reads self.old) (reads self.new) }
        ensures time { IsTouched place (place + length bytes.now) (moment self.old) (past self.old) (moment self.new)
            (past self.new) }
        ensures failures { failures self.new ≡ failures self.old };

    /// Cuts the disk to a length. Err where the disk failed; any bytes may then stand from there on.
    fn cut(&mut self, len: usize) -> Result<(), DiskFailed>
        requires { len ≤ length (reads self.old) }
        ensures cut { OnOk result (reads self.new ≡ take len (reads self.old)) }
        ensures failed { OnErr result (Stays ((len, length (reads self.old)) ∷ []) (reads self.old) (reads self.new)) }
        ensures time { IsTouched len (length (reads self.old)) (moment self.old) (past self.old) (moment self.new)
            (past self.new) }
        ensures failures { IsCounted (failures self.old) (failures self.new) result };

    /// Makes sure what a read gives. Err where the disk failed; a crash may then leave what it might have left before.
    fn sync(&mut self) -> Result<(), DiskFailed>
        ensures sure { OnOk result (moment self.new ≡ settled (reads self.old)) }
        ensures clock { OnOk result (past self.new ≡ moment self.old ∷ past self.old) }
        ensures failed { OnErr result (moment self.new ≡ moment self.old) }
        ensures failed_clock { OnErr result (past self.new ≡ past self.old) }
        ensures same { reads self.new ≡ reads self.old }
        ensures failures { IsCounted (failures self.old) (failures self.new) result };

    /// What a read gives now is one of the things that a crash now may leave.
    ghost read_is_left: { (disk : Self) → MayLeave (moment disk) (reads disk) };

    /// It has fewer than 2^63 bytes.
    ghost fits: { (disk : Self) → length (reads disk) < 2 ^ 63 };
}
