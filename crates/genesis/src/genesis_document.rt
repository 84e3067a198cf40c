//! What a genesis document says: the genesis, and the scheme of its network.

ghost use Rattle.std.specs.Prelude.{◌≡◌, Ok, Err, IfOk, MatchResult, ok_or};
ghost use Rattle.toml.specs.Parse.{parse_document};
ghost use Rattle.toml.specs.View.{table_view};
ghost use Rattle.genesis.specs.declared.genesis_fault.GenesisFault.TheVariants.{NotToml};
ghost use Rattle.genesis.specs.Steps.{Gives};
ghost use Rattle.genesis.specs.Judgement.{genesis_of};
ghost use Rattle.genesis.specs.Meaning.{IsAnswer, NamesScheme};

use crate::document::Written;
use crate::genesis::Genesis;
use crate::genesis_fault::GenesisFault;
use crate::scheme::Scheme;
use std::alloc::Global;
use toml::Table;

/// What a genesis document says.
#[derive(Debug, Drop)]
pub struct GenesisDocument {
    /// What the network agrees on before its first block.
    pub genesis: Genesis,
    /// By which its signatures are judged.
    pub scheme: Scheme,
}

/// The table of a document.
fn read_table(alloc: Global, text: &str) -> Result<Table, GenesisFault>
    ensures { Gives table_view result (ok_or (parse_document text.now) NotToml) }
{
    match toml::table_from_str(alloc, text) {
        Ok(table) => Ok(table),
        Err(error) if error.is_memory() => Err(GenesisFault::OutOfMemory),
        Err(_) => Err(GenesisFault::NotToml),
    }
}

impl GenesisDocument {
    /// What a TOML document says: the genesis, as `Genesis::from_toml` reads it, and the scheme that `scheme` names,
    /// `"test"` or `"ed25519"`. Where the key is missing it is the tests' scheme. Err is the first of the faults that
    /// applies to the whole text, or OutOfMemory. Takes time and memory in proportion to the text.
    pub fn from_toml(alloc: Global, text: &str) -> Result<GenesisDocument, GenesisFault>
        ensures exact { Gives (λ document. document.genesis) result (genesis_of text.now) }
        ensures least { MatchResult result (λ document. IsAnswer text.now (Ok document.genesis))
            (λ fault. IsAnswer text.now (Err fault)) }
        ensures scheme { IfOk result (λ document. NamesScheme text.now document.scheme) }
    {
        let table = read_table(alloc, text)?;
        let written = Written::of_table(alloc, &table)?;
        let genesis = Genesis::of_written(alloc, &written)?;
        Ok(GenesisDocument {
            genesis,
            scheme: written.scheme,
        })
    }
}
