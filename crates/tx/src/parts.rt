//! The parts of which a transaction is made.

ghost use Rattle.std.specs.Prelude.{◌≡◌, OnOk, IfErr};
ghost use Rattle.std.specs.Bool.{OnTrue, OnFalse};
ghost use Rattle.tx.specs.BodyView.{body_of};
ghost use Rattle.tx.specs.WitnessesView.{witnesses_of};
ghost use Rattle.tx.specs.Making.{parts_of, AreInOrder, AreSamePartsAs, AreSaid, AreSound, HasNumbers};
ghost use Rattle.tx.specs.Making.{transaction_of_halves, transaction_of_parts};
ghost use Rattle.tx.specs.Parts.{HasDeepScript, IsPartsFault};

use crate::body::Body;
use crate::input::Input;
use crate::key_witness::KeyWitness;
use crate::lists::MAX_OUTPUTS;
use crate::nesting::{MAX_SCRIPT_NESTING, outputs_nesting, scripts_nesting};
use crate::output::Output;
use crate::parts_fault::PartsFault;
use crate::ranked::{first_repeated, put_in_order};
use crate::witnesses::Witnesses;
use timelock::{Interval, Script};
use value::Mint;

/// The parts of a transaction. Inputs, signatures and scripts may come in any order.
#[derive(Debug, Drop)]
pub struct TxParts {
    /// What is spent, none of it twice.
    pub inputs: Vec<Input>,
    /// What is left to be spent, in order: at most 65,536.
    pub outputs: Vec<Output>,
    /// The fee, in lovelace.
    pub fee: u64,
    /// The slots in which the transaction holds.
    pub interval: Interval,
    /// What is minted and burned.
    pub mint: Mint,
    /// Signatures of the identifier, one of each key at most. Whether they are good is not asked.
    pub signatures: Vec<KeyWitness>,
    /// Scripts, none of them twice.
    pub scripts: Vec<Script>,
}

impl TxParts {
    /// Puts inputs, signatures and scripts in the order of a text. Takes no memory.
    pub(crate) fn put_in_order(&mut self)
        ensures same { AreSamePartsAs (parts_of self.old) (parts_of self.new) }
        ensures ordered { AreInOrder self.new }
    {
        put_in_order(&mut self.inputs);
        put_in_order(&mut self.signatures);
        put_in_order(&mut self.scripts);
    }

    /// Whether a script nests too deep to stand in a transaction. No output and no mint does.
    fn nests_too_deep(&self) -> bool
        ensures deep { OnTrue result (HasDeepScript (parts_of self.now)) }
        ensures sound { OnFalse result (AreSaid (parts_of self.now)) }
    {
        let outputs = outputs_nesting(&self.outputs);
        let scripts = scripts_nesting(&self.scripts);
        outputs.max(scripts).max(self.mint.nesting()) > MAX_SCRIPT_NESTING
    }

    /// Err with the first fault of parts that are in order. Takes no memory. Linear in outputs, signatures and scripts.
    pub(crate) fn check(&self) -> Result<(), PartsFault>
        requires { AreInOrder self.now }
        ensures sound { OnOk result (AreSound (parts_of self.now)) }
        ensures fault { IfErr result (IsPartsFault (parts_of self.now)) }
    {
        if let Some(input) = first_repeated(&self.inputs) {
            return Err(PartsFault::RepeatedInput(*input));
        }
        if self.outputs.len() > MAX_OUTPUTS {
            return Err(PartsFault::TooManyOutputs(self.outputs.len() as u64));
        }
        if let Some(signature) = first_repeated(&self.signatures) {
            return Err(PartsFault::RepeatedKey(signature.key));
        }
        if let Some(script) = first_repeated(&self.scripts) {
            return Err(PartsFault::RepeatedScript(script.hash()));
        }
        if self.nests_too_deep() {
            return Err(PartsFault::TooDeep);
        }
        Ok(())
    }

    /// The same parts as a body and witnesses.
    pub(crate) fn into_halves(self) -> (Body, Witnesses)
        ensures same { transaction_of_halves (body_of result.0) (witnesses_of result.1) ≡
            transaction_of_parts (parts_of self) }
        ensures numbers { HasNumbers (parts_of self) }
    {
        let body = Body {
            inputs: self.inputs,
            outputs: self.outputs,
            fee: self.fee,
            end: self.interval.end,
            start: self.interval.start,
            mint: self.mint,
        };
        let witnesses = Witnesses {
            signatures: self.signatures,
            scripts: self.scripts,
        };
        (body, witnesses)
    }
}
