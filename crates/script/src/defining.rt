//! Lines that define what a name is bound to.

ghost use Rattle.std.specs.Prelude.{◌≡◌, None, Ok, Some, true, false, is_some};
ghost use Rattle.script.specs.PlaceView.{place_of};
ghost use Rattle.script.specs.Line.{said_bytes};
ghost use Rattle.script.specs.Names.{AllNames, OpenTx as Making, bound_to};
ghost use Rattle.script.specs.NamesView.{bound_of};
ghost use Rattle.script.specs.Meaning.{Defines, Finishes, MeansScript, base_after, begun, binds_bytes, block_meaning};
ghost use Rattle.script.specs.Meaning.{are_some, bound_raw, built_key, where_free};
ghost use Rattle.script.specs.RequestView.{AreNamed, Asks, AsksFor};
ghost use Rattle.script.specs.WordsView.{words_left};

use crate::bound_names::Bound;
use crate::building::{base_after, build};
use crate::digits::Digits;
use crate::fault::LineFault;
use crate::key::Key;
use crate::name::Name;
use crate::name_words::NameWords;
use crate::names::Names;
use crate::open_tx::OpenTx;
use crate::place_words::NamedPlace;
use crate::request::Request;
use crate::stop::Stop;
use cbor::CborFault;
use draft::Draft;
use timelock::Script;

impl Names {
    /// A line that defines a key, where there is one that it says. That is known before memory is asked for.
    pub(crate) fn define_key<'a>(
        &mut self,
        name: Name<'a>,
        key: Option<Key>,
    ) -> Result<Request<'a>, Stop>
        ensures { (names : AllNames) → AreNamed self.old names → AsksFor names
            (where_free (bound_to name.entry.text.now names.of_keys) (built_key name.entry.text.now key)) false
            result self.new }
    {
        if self.known.keys.get(name.text).is_some() {
            return Err(Stop::Fault(LineFault::NameTaken));
        }
        let Some(key) = key else {
            return Err(Stop::Fault(LineFault::NotBuilt));
        };
        let name = Vec::from_slice(self.alloc, name.text)?;
        self.known.keys.bind(name, key)?;
        Ok(Request::Nothing)
    }

    /// A line that defines a native script.
    pub(crate) fn define_script<'a>(
        &mut self,
        name: Name<'a>,
        digits: Digits<'_>,
    ) -> Result<Request<'a>, Stop>
        ensures { (names : AllNames) → AreNamed self.old names → Asks names
            (MeansScript (bound_to name.entry.text.now names.of_scripts) name.entry.text.now
            (said_bytes digits.entry.text.now)) true result self.new }
    {
        if self.known.scripts.get(name.text).is_some() {
            return Err(Stop::Fault(LineFault::NameTaken));
        }
        let bytes = digits.bytes(self.alloc)?;
        let script = match Script::decode(self.alloc, &bytes) {
            Ok(script) => script,
            Err(CborFault::Malformed) => return Err(Stop::Fault(LineFault::NotBuilt)),
            Err(CborFault::OutOfMemory) => return Err(Stop::OutOfMemory),
        };
        let name = Vec::from_slice(self.alloc, name.text)?;
        self.known.scripts.bind(name, script)?;
        Ok(Request::Nothing)
    }

    /// A line of this number that begins a transaction. Its name is bound once it ends.
    pub(crate) fn begin_tx<'a>(&mut self, number: u64, name: Name<'a>) -> Result<Request<'a>, Stop>
        ensures { (names : AllNames) → AreNamed self.old names → AsksFor names
            (where_free (bound_to name.entry.text.now names.of_txs) (begun number name.entry.text.now)) false
            result self.new }
    {
        if self.known.txs.get(name.text).is_some() {
            return Err(Stop::Fault(LineFault::NameTaken));
        }
        self.making = Some(OpenTx {
            name: Vec::from_slice(self.alloc, name.text)?,
            line: number,
            draft: Draft::new(self.alloc),
        });
        Ok(Request::Nothing)
    }

    /// Whether the name is one of bytes.
    pub(crate) fn has_bytes(&self, name: Name<'_>) -> bool
        ensures { (names : AllNames) → AreNamed self.now names
            → result ≡ is_some (bound_to name.entry.text.now names.of_bytes) }
    {
        self.bytes.get(name.text).is_some()
    }

    /// Binds a name of bytes that is free.
    fn bind_bytes<'a>(&mut self, name: Name<'a>, bound: Bound) -> Result<Request<'a>, Stop>
        ensures { (names : AllNames) → AreNamed self.old names → bound_to name.entry.text.now names.of_bytes ≡ None
            → AsksFor names (Ok (binds_bytes name.entry.text.now (bound_of bound))) false result self.new }
    {
        self.bytes.bind(name.text, bound)?;
        Ok(Request::Nothing)
    }

    /// A line that defines a block of transactions that have names. All is known that it names, and its own name free,
    /// before memory is asked for.
    pub(crate) fn define_block<'a>(
        &mut self,
        name: Name<'a>,
        parent: NamedPlace<'_>,
        slot: u64,
        transactions: NameWords<'_>,
    ) -> Result<Request<'a>, Stop>
        ensures { (names : AllNames) → AreNamed self.old names → AsksFor names
            (block_meaning names name.entry.text.now (place_of parent.entry) slot
            (words_left transactions.entry.words)) (are_some (words_left transactions.entry.words)) result self.new }
    {
        let Some(base) = base_after(&self.bytes, parent) else {
            return Err(Stop::Fault(LineFault::UnknownName));
        };
        if !self.known.knows_txs(transactions) {
            return Err(Stop::Fault(LineFault::UnknownName));
        }
        if self.has_bytes(name) {
            return Err(Stop::Fault(LineFault::NameTaken));
        }
        let txs = self.known.gather_txs(transactions)?;
        let bound = build(self.alloc, base, slot, &txs)?;
        self.bind_bytes(name, bound)
    }

    /// A line that defines bytes.
    pub(crate) fn define_raw<'a>(
        &mut self,
        name: Name<'a>,
        digits: Digits<'_>,
    ) -> Result<Request<'a>, Stop>
        ensures { (names : AllNames) → AreNamed self.old names → AsksFor names
            (where_free (bound_to name.entry.text.now names.of_bytes)
            (Ok (binds_bytes name.entry.text.now (bound_raw (said_bytes digits.entry.text.now))))) false result
            self.new }
    {
        if self.has_bytes(name) {
            return Err(Stop::Fault(LineFault::NameTaken));
        }
        let bytes = digits.bytes(self.alloc)?;
        self.bind_bytes(name, Bound { bytes, place: None })
    }

    /// The line that ends the transaction in the making: it is signed, and its name is bound.
    pub(crate) fn end_tx<'a>(&mut self) -> Result<Request<'a>, Stop>
        ensures { (names : AllNames) → AreNamed self.old names → (made : Making) → names.making ≡ Some made
            → AsksFor names (Ok (Defines (Finishes made))) false result self.new }
    {
        let Some(open) = self.making.take() else {
            return Err(Stop::Fault(LineFault::BadLine));
        };
        let tx = open.draft.finish()?;
        self.printed.name_tx(tx.id(), &open.name)?;
        self.known.txs.bind(open.name, tx)?;
        Ok(Request::Nothing)
    }
}
