//! What is known by a name.

ghost use Rattle.std.specs.Prelude.{◌≡◌, Err, IsTrue, option_map, is_some};
ghost use Rattle.value.specs.View.{asset_of};
ghost use Rattle.tx.specs.View.{address_of, credential_of};
ghost use Rattle.script.specs.Adding.{AreFound, AreGathered};
ghost use Rattle.script.specs.KnownView.{AreKnown};
ghost use Rattle.script.specs.Line.{said_assets};
ghost use Rattle.script.specs.Meaning.{address_on, are_some, assets_of, key_addresses, payment_of, txs_named};
ghost use Rattle.script.specs.Names.{AllNames, no_names};
ghost use Rattle.script.specs.PartView.{owner_of};
ghost use Rattle.script.specs.RequestView.{key_address_of};
ghost use Rattle.script.specs.WordsView.{words_left};
ghost use Rattle.script.specs.declared.stop.Stop.TheVariants.{OutOfMemory};

use crate::asset_words::AssetWords;
use crate::fault::LineFault;
use crate::known::Known;
use crate::name_table::NameTable;
use crate::name_words::NameWords;
use crate::part::Owner;
use crate::request::KeyAddress;
use crate::stop::Stop;
use genesis::{Genesis, Scheme};
use ident::KeyHash;
use std::alloc::Global;
use tx::{Address, Credential, Tx};
use value::AssetQuantity;

impl Known {
    /// Nothing yet, on the network of this genesis, where keys sign by this scheme. Takes no memory.
    pub fn new(alloc: Global, genesis: &Genesis, scheme: Scheme) -> Known
        ensures { AreKnown result (no_names scheme genesis.now.params.network) }
    {
        Known {
            alloc,
            scheme,
            network: genesis.network(),
            keys: NameTable::new(alloc),
            scripts: NameTable::new(alloc),
            txs: NameTable::new(alloc),
        }
    }

    /// What unlocks the outputs of an owner that is known.
    #[tactic(auto, unfolding(model::specs::Transaction::key_hash_of))]
    fn payment_of(&self, owner: Owner<'_>) -> Option<Credential>
        ensures { (names : AllNames) → AreKnown self.now names
            → option_map credential_of result ≡ payment_of names (owner_of owner.entry) }
    {
        match owner {
            Owner::Key(name) => {
                let key = self.keys.get(name.text)?;
                Some(Credential::Key(KeyHash::of_key(key.bytes())))
            }
            Owner::Script(name) => {
                let script = self.scripts.get(name.text)?;
                Some(Credential::Script(script.hash()))
            }
        }
    }

    /// The address of an owner that is known.
    pub fn address_on(&self, owner: Owner<'_>) -> Option<Address>
        ensures { (names : AllNames) → AreKnown self.now names
            → option_map address_of result ≡ address_on names (owner_of owner.entry) }
    {
        let payment = self.payment_of(owner)?;
        Address::new(self.network, payment)
    }

    /// Whether all keys are known. Takes no memory.
    pub fn knows_keys(&self, keys: NameWords<'_>) -> bool
        ensures { (names : AllNames) → AreKnown self.now names
            → result ≡ is_some (key_addresses names (words_left keys.entry.words)) }
    {
        let mut left = keys;
        while let Some(name) = left.next_name() {
            if self.address_on(Owner::Key(name)).is_none() {
                return false;
            }
        }
        true
    }

    /// The keys of these names with their addresses, in their order.
    pub fn gather_keys(&self, keys: NameWords<'_>) -> Result<Vec<KeyAddress>, Stop>
        ensures { (names : AllNames) → AreKnown self.now names
            → AreGathered key_address_of (key_addresses names (words_left keys.entry.words)) result }
    {
        let mut gathered = Vec::new(self.alloc);
        let mut left = keys;
        while let Some(name) = left.next_name() {
            let Some(address) = self.address_on(Owner::Key(name)) else {
                return Err(Stop::Fault(LineFault::UnknownName));
            };
            let name = Vec::from_slice(self.alloc, name.text)?;
            gathered.push(KeyAddress { name, address })?;
        }
        Ok(gathered)
    }

    /// Whether the scripts of all assets are known. Takes no memory.
    fn knows_assets(&self, assets: AssetWords<'_>) -> bool
        ensures { (names : AllNames) → AreKnown self.now names
            → result ≡ is_some (assets_of names (said_assets (words_left assets.entry.words))) }
    {
        let mut left = assets;
        while let Some(asset) = left.next_asset() {
            if self.scripts.get(asset.script.text).is_none() {
                return false;
            }
        }
        true
    }

    /// The assets, whose policies are the hashes of scripts.
    fn gather_assets(&self, assets: AssetWords<'_>) -> Result<Vec<AssetQuantity<u64>>, Stop>
        ensures { (names : AllNames) → AreKnown self.now names
            → AreGathered asset_of (assets_of names (said_assets (words_left assets.entry.words))) result }
    {
        let mut gathered = Vec::new(self.alloc);
        let mut left = assets;
        while let Some(asset) = left.next_asset() {
            let Some(script) = self.scripts.get(asset.script.text) else {
                return Err(Stop::Fault(LineFault::UnknownName));
            };
            gathered.push(AssetQuantity {
                policy: script.hash(),
                name: asset.name.bytes(self.alloc)?,
                quantity: asset.quantity,
            })?;
        }
        Ok(gathered)
    }

    /// The assets, whose policies are the hashes of scripts. That a script is not known is told before memory is asked
    /// for.
    pub fn assets_of(&self, assets: AssetWords<'_>) -> Result<Vec<AssetQuantity<u64>>, Stop>
        ensures { (names : AllNames) → AreKnown self.now names
            → AreFound asset_of (assets_of names (said_assets (words_left assets.entry.words))) result }
    {
        if !self.knows_assets(assets) {
            return Err(Stop::Fault(LineFault::UnknownName));
        }
        self.gather_assets(assets)
    }

    /// Whether all transactions are known. Takes no memory.
    pub fn knows_txs(&self, names: NameWords<'_>) -> bool
        ensures { (all : AllNames) → AreKnown self.now all
            → result ≡ is_some (txs_named all (words_left names.entry.words)) }
    {
        let mut left = names;
        while let Some(name) = left.next_name() {
            if self.txs.get(name.text).is_none() {
                return false;
            }
        }
        true
    }

    /// Copies of the transactions of these names, in this order.
    pub fn gather_txs(&self, names: NameWords<'_>) -> Result<Vec<Tx>, Stop>
        ensures gathered { (all : AllNames) → AreKnown self.now all
            → AreGathered (λ tx. tx) (txs_named all (words_left names.entry.words)) result }
        // Without a name there is nothing to take memory for.
        ensures short { result ≡ Err OutOfMemory → IsTrue (are_some (words_left names.entry.words)) }
    {
        let mut gathered = Vec::new(self.alloc);
        let mut left = names;
        while let Some(name) = left.next_name() {
            let Some(tx) = self.txs.get(name.text) else {
                return Err(Stop::Fault(LineFault::UnknownName));
            };
            gathered.push(tx.try_clone()?)?;
        }
        Ok(gathered)
    }
}
