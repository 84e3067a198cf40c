//! What followers are told.

ghost use Rattle.std.specs.Prelude.{◌≡◌, IfOk, OnErr, Some, ℕ, [], length};
ghost use Rattle.followers.specs.declared.place.Due.TheVariants.{Add};
ghost use Rattle.followers.specs.Standing.{IsDueOf};
ghost use Rattle.chain.specs.Chained.{chain_of};
ghost use Rattle.chain_core.specs.FollowerCalls.{IsWithin};
ghost use Rattle.chain_core.specs.Views.{instruction_of};

use block::CheckedBlock;
use chain::Chain;
use followers::{Due, UnknownFollower};
use ident::Point;
use std::alloc::AllocError;
use std::fmt;
use thiserror::Error;
use witness_pool::SigScheme;

/// What a follower is told.
#[derive(Debug, Drop)]
pub enum Instruction<S: SigScheme> {
    /// To put on this block. It is the one that the node keeps, shared.
    AddBlock(CheckedBlock<S>),
    /// To go back to this point.
    RollBack(Point),
}

impl<S: SigScheme> fmt::Display for Instruction<S> {
    ghost use Rattle.chain_core.specs.Texts.{instruction_text};

    ghost output = { λ instruction. Some (instruction_text instruction) };

    /// Writes `add` and the block's hash, or `rollback` and the point, with 64 lower case hexadecimal digits.
    fn fmt<W: fmt::Write>(&self, f: &mut fmt::Formatter<W>) -> fmt::Result {
        match self {
            Instruction::AddBlock(block) => {
                let hash = block.hash();
                write!(f, "add {hash}")
            }
            Instruction::RollBack(point) => write!(f, "rollback {point}"),
        }
    }
}

/// Why a follower is told nothing.
#[derive(Clone, Copy, Debug, Drop, PartialEq, Eq, Error)]
pub enum NextFault {
    /// No follower of that number is open.
    #[error("unknown follower")]
    UnknownFollower,
    /// Memory ran out.
    #[error("out of memory")]
    OutOfMemory,
}

impl From<AllocError> for NextFault {
    ghost use Rattle.std.specs.Prelude.{◌≡◌};
    ghost use Rattle.chain_core.specs.declared.follower.NextFault.TheVariants.{OutOfMemory};

    ghost from_gives = { λ _ e. e ≡ OutOfMemory };

    fn from(_error: AllocError) -> NextFault {
        NextFault::OutOfMemory
    }
}

impl From<UnknownFollower> for NextFault {
    ghost use Rattle.std.specs.Prelude.{◌≡◌};
    ghost use Rattle.chain_core.specs.declared.follower.NextFault.TheVariants.{UnknownFollower};

    ghost from_gives = { λ _ e. e ≡ UnknownFollower };

    fn from(_error: UnknownFollower) -> NextFault {
        NextFault::UnknownFollower
    }
}

/// The instruction that what is due is beside the chain. Shares the block, and copies none of its bytes.
pub fn instruction_for<S: SigScheme>(
    chain: &Chain<S>,
    due: Option<Due>,
) -> Result<Option<Instruction<S>>, AllocError>
    requires gone { chain.now.gone ≡ [] }
    requires within { IsWithin (length (chain_of chain.now)) due }
    ensures ok { IfOk result (λ instruction. IsDueOf (chain_of chain.now) due (instruction_of instruction)) }
    ensures memory { OnErr result ((after : ℕ) × (due ≡ Some (Add after))) }
{
    match due {
        None => Ok(None),
        Some(Due::RollBack { to }) => Ok(Some(Instruction::RollBack(chain.point_at(to)))),
        Some(Due::Add { after }) => {
            let block = chain.resident_after(0)[after as usize].try_clone()?;
            Ok(Some(Instruction::AddBlock(block)))
        }
    }
}
