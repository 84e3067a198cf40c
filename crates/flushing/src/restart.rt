//! A core on the blocks of a log that is being opened.

use chain_core::{Core, ReopenFault, Reopening};
use genesis::Genesis;
use immlog::{Blocks, Sink};
use std::alloc::{AllocError, Global};
use std::marker::Model;
use std::mem;
use std::snapshot::Snapshot;
use witness_pool::SigScheme;

/// What a node that restarts makes of its log: it is given the blocks while the log is opened, and makes a core of
/// them.
///
/// ```text
/// let mut restart = Restart::<TestScheme>::new(alloc, genesis)?;
/// let mut log = Log::open(rt, alloc, disk, &mut restart)?; // or the disk again, beside why not
/// let mut core = restart.core()?; // on the log's blocks; or for threads, `restart.shared(callers)?`
/// ```
///
/// Each block is read, hashed and judged once, and its bytes are copied once, for the core. At the first block that is
/// none or can't come next, or where memory runs out, it makes nothing more, and tells it at the end. Where the log
/// isn't opened, the blocks that were given are those of no log: begin a new one.
#[derive(Drop)]
pub struct Restart<S: SigScheme> {
    pub(crate) alloc: Global,
    made: Result<Reopening<S>, ReopenFault>,
    genesis: Snapshot<Genesis>,
    given: Blocks,
}

impl<S: SigScheme> Model for Restart<S> {
    ghost use Rattle.flushing.specs.Restarting.{Restarting, coded_restarting};

    ghost Value = { Restarting };

    ghost coded = { coded_restarting };

    ghost use Rattle.flushing.specs.RestartView.{restart_of, IsMade};

    ghost view = { restart_of };

    ghost invariant = { IsMade S.verifies };
}

impl<S: SigScheme> Restart<S> {
    ghost use Rattle.std.specs.Prelude.{◌≡◌, [], IfOk, IfErr};
    ghost use Rattle.model.specs.Ledger.{network_of};
    ghost use Rattle.chain_core.specs.Held.{opening_held};
    ghost use Rattle.chain_core.specs.Immutable.{texts_of};
    ghost use Rattle.chain_core.specs.Reopening.{IsChainOf, IsReopenFault, WereImmutable};
    ghost use Rattle.chain_core.specs.declared.reopening.ReopenFault.TheVariants as reopen;

    /// On no block, under this genesis. Err where memory runs out. Takes one insertion for each output of the genesis.
    pub fn new(alloc: Global, genesis: Genesis) -> Result<Restart<S>, AllocError>
        ensures genesis { IfOk result (λ restart. restart.genesis ≡ genesis) }
        ensures blocks { IfOk result (λ restart. restart.blocks ≡ []) }
    {
        let told = Snapshot::of(&genesis);
        let made = Reopening::new(alloc, genesis)?;
        Ok(Restart {
            alloc,
            made: Ok(made),
            genesis: told,
            given: Blocks::new(),
        })
    }

    /// The core on the blocks that were given. Err at the first of them that is none or can't come next, or where
    /// memory ran out.
    pub fn core(self) -> Result<Core<S>, ReopenFault>
        ensures opened { IfOk result (λ core. core ≡ opening_held self.genesis core.opened) }
        // It was opened on a valid chain of these blocks.
        ensures chain { IfOk result (λ core. IsChainOf (network_of self.genesis S.verifies) self.blocks core.opened) }
        ensures blocks { IfOk result (λ core. texts_of core.opened ≡ self.blocks) }
        ensures fault { IfErr result (IsReopenFault (network_of self.genesis S.verifies) self.blocks) }
        // Of blocks that a node put there, of those that no rollback reaches, none is told as invalid.
        ensures again { IfErr result (λ fault. WereImmutable (network_of self.genesis S.verifies) self.blocks
            → fault ≡ reopen.OutOfMemory) }
    {
        let Restart {
            alloc: _,
            made,
            genesis: _,
            given: _,
        } = self;
        Ok(made?.finish()?)
    }
}

impl<S: SigScheme> Sink for Restart<S> {
    ghost use Rattle.model.specs.Genesis as model;

    ghost given = { λ restart. restart.blocks };

    ghost Kept = { model.Genesis };

    ghost kept = { λ restart. restart.genesis };

    fn give(&mut self, block: &[u8]) {
        self.given.add(block);
        self.made = match mem::replace(&mut self.made, Err(ReopenFault::OutOfMemory)) {
            Ok(made) => made.push(block),
            Err(fault) => Err(fault),
        };
    }
}
