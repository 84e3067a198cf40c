//! What the lines of a script do, within a transaction and outside.

ghost use Rattle.std.specs.Prelude.{◌≡◌, None, Some, false};
ghost use Rattle.script.specs.LineView.{line_of};
ghost use Rattle.script.specs.Meaning.{ForgesBlock, OpensFollower, SubmitsTx, TellsFollower, ForwardsFollower};
ghost use Rattle.script.specs.Meaning.{ClosesFollower, DiscardsBlock, arrival_meaning, is_late, meaning_inside};
ghost use Rattle.script.specs.Meaning.{points_at, address_on, block_point, key_addresses, where_free, where_known};
ghost use Rattle.script.specs.Meaning.{PrintsWhy, PrintsWhere, PrintsBalance, WatchesKeys};
ghost use Rattle.model.specs.Transaction.{transaction_id_of};
ghost use Rattle.script.specs.Names.{AllNames, OpenTx, bound_to};
ghost use Rattle.script.specs.PartView.{owner_of, part_of};
ghost use Rattle.script.specs.Line.{AddPart, said_places};
ghost use Rattle.script.specs.RequestView.{AreNamed, AsksFor, AsksLine};
ghost use Rattle.script.specs.WordsView.{words_left};

use crate::fault::LineFault;
use crate::key::Key;
use crate::line::{Form, Line};
use crate::name::Name;
use crate::name_words::NameWords;
use crate::names::Names;
use crate::part::{Owner, Part};
use crate::place_words::{NamedPlace, PlaceWords};
use crate::request::Request;
use crate::stop::Stop;

impl Names {
    /// A line in which the bytes of a name arrive.
    fn ask_arrival<'a>(&self, form: Form, name: Name<'a>) -> Result<Request<'a>, Stop>
        ensures { (names : AllNames) → AreNamed self.now names → AsksFor names
            (arrival_meaning form name.entry.text.now (bound_to name.entry.text.now names.of_bytes)) false result
            self.now }
    {
        if self.has_bytes(name) {
            Ok(Request::Arrive { form, name })
        } else {
            Err(Stop::Fault(LineFault::UnknownName))
        }
    }

    /// A line in which the transaction of a name is submitted.
    fn ask_submission<'a>(&self, name: Name<'a>) -> Result<Request<'a>, Stop>
        ensures { (names : AllNames) → AreNamed self.now names → AsksFor names
            (where_known (bound_to name.entry.text.now names.of_txs)
            (λ tx. Ok (SubmitsTx name.entry.text.now tx))) false result self.now }
    {
        if self.known.txs.get(name.text).is_some() {
            Ok(Request::Submit { name })
        } else {
            Err(Stop::Fault(LineFault::UnknownName))
        }
    }

    /// A line in which a block is forged, whose name is to be free.
    fn ask_forging<'a>(&self, name: Name<'a>, slot: u64) -> Result<Request<'a>, Stop>
        ensures { (names : AllNames) → AreNamed self.now names → AsksFor names
            (where_free (bound_to name.entry.text.now names.of_bytes) (Ok (ForgesBlock name.entry.text.now slot)))
            false result self.now }
    {
        if self.has_bytes(name) {
            Err(Stop::Fault(LineFault::NameTaken))
        } else {
            Ok(Request::Forge { name, slot })
        }
    }

    /// A line that opens a follower. Its name gets its room.
    fn ask_open<'a>(&mut self, name: Name<'a>) -> Result<Request<'a>, Stop>
        ensures { (names : AllNames) → AreNamed self.old names → AsksFor names
            (where_free (bound_to name.entry.text.now names.of_followers) (Ok (OpensFollower name.entry.text.now)))
            false result self.new }
    {
        if self.followers.get(name.text).is_some() {
            return Err(Stop::Fault(LineFault::NameTaken));
        }
        self.followers.take_room(name.text)?;
        Ok(Request::Open { name })
    }

    /// A line that opens a follower with an index. Its name gets its room. An unknown key is told first, then a name
    /// that is taken, and both before memory is asked for. Each key is looked up twice.
    fn ask_watch<'a>(&mut self, name: Name<'a>, keys: NameWords<'_>) -> Result<Request<'a>, Stop>
        ensures { (names : AllNames) → AreNamed self.old names → AsksFor names
            (where_known (key_addresses names (words_left keys.entry.words))
            (λ all. where_free (bound_to name.entry.text.now names.of_followers)
            (Ok (WatchesKeys name.entry.text.now all)))) false result self.new }
    {
        if !self.known.knows_keys(keys) {
            return Err(Stop::Fault(LineFault::UnknownName));
        }
        if self.followers.get(name.text).is_some() {
            return Err(Stop::Fault(LineFault::NameTaken));
        }
        let keys = self.known.gather_keys(keys)?;
        self.followers.take_room(name.text)?;
        Ok(Request::Watch { name, keys })
    }

    /// The question what a follower is told next.
    fn ask_next<'a>(&self, name: Name<'a>) -> Result<Request<'a>, Stop>
        ensures { (names : AllNames) → AreNamed self.now names → AsksFor names
            (where_known (bound_to name.entry.text.now names.of_followers)
            (λ id. Ok (TellsFollower name.entry.text.now id))) false result self.now }
    {
        match self.followers.get(name.text) {
            Some(id) => Ok(Request::Next { name, id }),
            None => Err(Stop::Fault(LineFault::UnknownName)),
        }
    }

    /// A line that sets a follower to a place. All that it names is known before memory is asked for.
    fn ask_forward<'a>(&self, name: Name<'a>, places: PlaceWords<'_>) -> Result<Request<'a>, Stop>
        ensures { (names : AllNames) → AreNamed self.now names → AsksFor names
            (where_known (bound_to name.entry.text.now names.of_followers) (λ id. where_known
            (points_at names.of_bytes (said_places (words_left places.entry.words)))
            (λ points. Ok (ForwardsFollower name.entry.text.now id points)))) false result self.now }
    {
        let Some(id) = self.followers.get(name.text) else {
            return Err(Stop::Fault(LineFault::UnknownName));
        };
        let points = self.bytes.points_at(places)?;
        Ok(Request::Forward { name, id, points })
    }

    /// A line that closes a follower.
    fn ask_closing<'a>(&self, name: Name<'a>) -> Result<Request<'a>, Stop>
        ensures { (names : AllNames) → AreNamed self.now names → AsksFor names
            (where_known (bound_to name.entry.text.now names.of_followers)
            (λ id. Ok (ClosesFollower name.entry.text.now id))) false result self.now }
    {
        match self.followers.get(name.text) {
            Some(id) => Ok(Request::Close { name, id }),
            None => Err(Stop::Fault(LineFault::UnknownName)),
        }
    }

    /// A line in which a block is discarded.
    fn ask_discarding<'a>(&self, name: Name<'a>) -> Result<Request<'a>, Stop>
        ensures { (names : AllNames) → AreNamed self.now names → AsksFor names
            (where_known (block_point names.of_bytes name.entry.text.now)
            (λ point. Ok (DiscardsBlock name.entry.text.now point.hash))) false result self.now }
    {
        match self.bytes.point_at(NamedPlace::Block(name)) {
            Some(point) => Ok(Request::Discard {
                name,
                hash: point.hash,
            }),
            None => Err(Stop::Fault(LineFault::UnknownName)),
        }
    }

    /// The question why a block isn't selected.
    fn ask_why<'a>(&self, name: Name<'a>) -> Result<Request<'a>, Stop>
        ensures { (names : AllNames) → AreNamed self.now names → AsksFor names
            (where_known (block_point names.of_bytes name.entry.text.now)
            (λ point. Ok (PrintsWhy name.entry.text.now point.hash))) false result self.now }
    {
        match self.bytes.point_at(NamedPlace::Block(name)) {
            Some(point) => Ok(Request::Why {
                name,
                hash: point.hash,
            }),
            None => Err(Stop::Fault(LineFault::UnknownName)),
        }
    }

    /// The question where a transaction stands.
    fn ask_where<'a>(&self, name: Name<'a>) -> Result<Request<'a>, Stop>
        ensures { (names : AllNames) → AreNamed self.now names → AsksFor names
            (where_known (bound_to name.entry.text.now names.of_txs)
            (λ tx. Ok (PrintsWhere name.entry.text.now (transaction_id_of tx)))) false result self.now }
    {
        match self.known.txs.get(name.text) {
            Some(tx) => Ok(Request::Where { name, id: tx.id() }),
            None => Err(Stop::Fault(LineFault::UnknownName)),
        }
    }

    /// The question how much an owner has.
    fn ask_balance<'a>(&self, owner: Owner<'a>) -> Result<Request<'a>, Stop>
        ensures { (names : AllNames) → AreNamed self.now names → AsksFor names
            (where_known (address_on names (owner_of owner.entry))
            (λ address. Ok (PrintsBalance (owner_of owner.entry) address))) false result self.now }
    {
        match self.known.address_on(owner) {
            Some(address) => Ok(Request::Balance { owner, address }),
            None => Err(Stop::Fault(LineFault::UnknownName)),
        }
    }

    /// A part is added to the transaction in the making.
    fn add_part<'a>(&mut self, part: Part<'_>) -> Result<Request<'a>, Stop>
        ensures { (names : AllNames) → AreNamed self.old names → (made : OpenTx) → names.making ≡ Some made
            → AsksFor names (meaning_inside names made (AddPart (part_of part.entry)))
            (is_late (AddPart (part_of part.entry))) result self.new }
    {
        let Some(mut open) = self.making.take() else {
            return Err(Stop::Fault(LineFault::BadLine));
        };
        let added = self.known.add(&mut open.draft, part);
        self.making = Some(open);
        added?;
        Ok(Request::Nothing)
    }

    /// Does what a line says between `tx` and `end`, where only parts and empty lines stand.
    pub(crate) fn obey_inside<'a>(&mut self, line: Line<'a>) -> Result<Request<'a>, Stop>
        ensures { (names : AllNames) → AreNamed self.old names → (made : OpenTx) → names.making ≡ Some made
            → AsksFor names (meaning_inside names made (line_of line.entry)) (is_late (line_of line.entry))
            result self.new }
    {
        match line {
            Line::Nothing => Ok(Request::Nothing),
            Line::Part(part) => self.add_part(part),
            Line::End => self.end_tx(),
            _ => Err(Stop::Fault(LineFault::BadLine)),
        }
    }

    /// Does what a line of this number says elsewhere.
    pub(crate) fn obey_outside<'a>(
        &mut self,
        number: u64,
        line: Line<'a>,
    ) -> Result<Request<'a>, Stop>
        ensures { (names : AllNames) → AreNamed self.old names
            → AsksLine number names None (line_of line.entry) result self.new }
    {
        match line {
            Line::Nothing => Ok(Request::Nothing),
            Line::Key { name, digits } => self.define_key(name, Key::in_digits(&digits)),
            Line::Seed { name, digits } => {
                let key = Key::secret_in_digits(self.known.scheme, &digits);
                self.define_key(name, key)
            }
            Line::Script { name, digits } => self.define_script(name, digits),
            Line::Tx { name } => self.begin_tx(number, name),
            Line::Block {
                name,
                parent,
                slot,
                transactions,
            } => self.define_block(name, parent, slot, transactions),
            Line::Raw { name, digits } => self.define_raw(name, digits),
            Line::Arrive { form, name } => self.ask_arrival(form, name),
            Line::Submit { name } => self.ask_submission(name),
            Line::Forge { name, slot } => self.ask_forging(name, slot),
            Line::Open { name } => self.ask_open(name),
            Line::Watch { name, keys } => self.ask_watch(name, keys),
            Line::Next { name } => self.ask_next(name),
            Line::Forward { name, points } => self.ask_forward(name, points),
            Line::Close { name } => self.ask_closing(name),
            Line::Discard { name } => self.ask_discarding(name),
            Line::Tip => Ok(Request::Tip),
            Line::Mempool => Ok(Request::Mempool),
            Line::Utxo => Ok(Request::Utxo),
            Line::Why { name } => self.ask_why(name),
            Line::Where { name } => self.ask_where(name),
            Line::Balance { owner } => self.ask_balance(owner),
            Line::Part(_) | Line::End => Err(Stop::Fault(LineFault::BadLine)),
        }
    }
}
