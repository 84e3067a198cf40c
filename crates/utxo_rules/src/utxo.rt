//! The unspent outputs.

ghost use Rattle.std.specs.Prelude.{◌≡◌, ◌↔◌, [], IsTrue, IsSome, IfOk, OnOk, OnErr};
ghost use Rattle.std.specs.Option.{option_copied, option_map};
ghost use Rattle.std.specs.FinMap as finite;
ghost use Rattle.std.specs.Arc.{arc_value};
ghost use Rattle.model.specs.Utxo.{outputs_of, coin_of};
ghost use Rattle.tx.specs.View.{input_of, output_of, address_of};
ghost use Rattle.utxo_rules.specs.Entries.{pairs_of};
ghost use Rattle.utxo_rules.specs.Inside.{coin_at};

use crate::entries::{Entries, EntriesOf};
use crate::entry::{Pair, Place, Unspent};
use persistent_map::PersistentMap;
use std::alloc::{AllocError, Global};
use std::marker::Model;
use std::sync::Arc;
use tx::{Address, Input, Output};

/// The unspent outputs (Shelley, the UTxO): each stands at the input that would spend it. A copy takes no memory and
/// shares what the two have in common, so that a program can keep thousands of versions.
#[derive(Drop)]
pub struct Utxo {
    alloc: Global,
    map: PersistentMap<Place, Unspent>,
    // what all outputs hold together, in lovelace
    coin: u128,
}

impl Model for Utxo {
    ghost use Rattle.model.specs.Utxo as model;
    ghost use Rattle.model.specs.Codes.{coded_input, coded_output};
    ghost use Rattle.std.specs.FinMap as finite;

    ghost Value = { model.Utxo };

    ghost coded = { finite.code coded_input coded_output };

    ghost view = { λ u. finite.from_sorted u.map };

    ghost use Rattle.utxo_rules.specs.Inside.{IsCounted};

    ghost invariant = { IsCounted };
}

impl Utxo {
    /// No unspent outputs. Takes no memory.
    pub fn new(alloc: Global) -> Utxo
        ensures { result ≡ finite.empty }
    {
        Utxo {
            alloc,
            map: PersistentMap::new(alloc),
            coin: 0,
        }
    }

    /// How many outputs are unspent, in constant time.
    pub fn len(&self) -> usize
        ensures { result ≡ finite.len self.now }
    {
        self.map.len()
    }

    /// Whether no output is unspent, in constant time.
    pub fn is_empty(&self) -> bool
        ensures { IsTrue result ↔ (self.now ≡ finite.empty) }
    {
        self.map.is_empty()
    }

    /// The output that this input would spend, or None where it is spent or never was. Takes time in proportion to the
    /// logarithm of the length, and no memory.
    pub fn get(&self, input: &Input) -> Option<&Output>
        ensures { option_map output_of (option_copied result) ≡ finite.get self.now (input_of input.now) }
    {
        let unspent = self.map.get(&Place::of(input))?;
        Some(unspent.output())
    }

    /// All unspent outputs, each with the input that would spend it, in the order of the inputs. Takes no memory; each
    /// step takes time in proportion to the logarithm of the length.
    pub fn iter(&self) -> Entries<'_>
        ensures { result ≡ finite.entries self.now }
    {
        Entries {
            rest: self.map.iter(),
        }
    }

    /// The unspent outputs of this address, each with the input that would spend it, in the order of the inputs. Takes
    /// no memory. No index is kept of addresses: this walks through all unspent outputs, whether they are of the
    /// address or not, so that who asks often keeps an index.
    pub fn of(&self, address: &Address) -> EntriesOf<'_>
        ensures { result ≡ pairs_of (address_of address.now) (finite.entries self.now) }
    {
        EntriesOf {
            entries: self.iter(),
            bytes: address.to_bytes(),
        }
    }

    /// How much lovelace all of them hold together, in constant time and with no memory.
    pub fn coin(&self) -> u128
        ensures { result ≡ coin_of (outputs_of self.now) }
    {
        self.coin
    }

    /// The same unspent outputs again, in constant time and with no memory. Err where 2^63 copies share them already.
    pub fn try_clone(&self) -> Result<Utxo, AllocError>
        ensures { IfOk result (λ copy. copy ≡ self.now) }
    {
        Ok(Utxo {
            alloc: self.alloc,
            map: self.map.try_clone()?,
            coin: self.coin,
        })
    }

    /// Puts the output where this input would spend it, in the place of one that stands there. Takes time in
    /// proportion to the logarithm of the length, and memory for the output and for a copy of each node on the way that
    /// another version shares. Err where there is none: nothing changes.
    pub fn insert(&mut self, input: &Input, output: Output) -> Result<(), AllocError>
        ensures ok { OnOk result (self.new ≡ finite.insert self.old (input_of input.now) (output_of output)) }
        ensures err { OnErr result (self.new ≡ self.old) }
    {
        let unspent = Arc::new(self.alloc, Unspent::of(output))?;
        self.put(Place::of(input), unspent)
    }

    /// Takes out the output that this input spends, if it stands there. Takes time in proportion to the logarithm of
    /// the length, and memory for a copy of each node on the way that another version shares. Err where there is none,
    /// which is never so where no output stands there: nothing changes.
    pub fn remove(&mut self, input: &Input) -> Result<(), AllocError>
        ensures ok { OnOk result (self.new ≡ finite.remove self.old (input_of input.now)) }
        ensures err { OnErr result (self.new ≡ self.old) }
        ensures there { OnErr result (IsSome (finite.get self.old (input_of input.now))) }
    {
        self.take(input)?;
        Ok(())
    }

    /// Room for pairs that are taken out.
    pub(crate) fn no_pairs(&self) -> Vec<Pair>
        ensures { result.items ≡ [] }
    {
        Vec::new(self.alloc)
    }

    /// The same as [`Utxo::insert`] for an output that other versions may share.
    pub(crate) fn put(&mut self, place: Place, unspent: Arc<Unspent>) -> Result<(), AllocError>
        ensures ok { OnOk result (self.new ≡ finite.insert self.old place (arc_value unspent)) }
        ensures err { OnErr result (self.new ≡ self.old) }
    {
        // No outputs hold so much that their sum has no place.
        let Some(more) = self.coin.checked_add(coin_of(&unspent)) else {
            return Err(AllocError);
        };
        let old = self.map.insert(place, unspent)?;
        self.coin = more - coin_at(&old);
        Ok(())
    }

    /// The same as [`Utxo::remove`], and answers the pair that was taken out.
    pub(crate) fn take(&mut self, input: &Input) -> Result<Option<Pair>, AllocError>
        ensures found { IfOk result (λ taken.
            taken ≡ option_map (λ o. (input_of input.now, o)) (finite.get self.old (input_of input.now))) }
        ensures ok { OnOk result (self.new ≡ finite.remove self.old (input_of input.now)) }
        ensures err { OnErr result (self.new ≡ self.old) }
        ensures there { OnErr result (IsSome (finite.get self.old (input_of input.now))) }
    {
        let place = Place::of(input);
        let taken = self.map.remove(&place)?;
        self.coin -= coin_at(&taken);
        match taken {
            None => Ok(None),
            Some(unspent) => Ok(Some(Pair { place, unspent })),
        }
    }
}

/// How much lovelace an output holds.
fn coin_of(unspent: &Arc<Unspent>) -> u128
    ensures { result ≡ (arc_value unspent.now).value.coin }
{
    u128::from(unspent.output().value.coin())
}

/// How much lovelace an output holds that may be there.
fn coin_at(unspent: &Option<Arc<Unspent>>) -> u128
    ensures { result ≡ coin_at (option_map arc_value unspent.now) }
{
    match unspent {
        None => 0,
        Some(unspent) => coin_of(unspent),
    }
}
