//! The node with the names of a script.

ghost use Rattle.std.specs.Prelude.{◌≡◌, ◌+◌, ◌≤◌, [], ◌++◌, List, None, Some, IfOk, IfErr, OnOk, length, map, option_map};
ghost use Rattle.model.specs.Cbor.{text_of};
ghost use Rattle.model.specs.Transaction.{Address as PlainAddress, Transaction, item_of_transaction};
ghost use Rattle.model.specs.History.{State, Arrive, Submit, Step};
ghost use Rattle.model.specs.Ledger.{network_of};
ghost use Rattle.chain_core.specs.Held.{Stands, network_held};
ghost use Rattle.chain_core.specs.Steps.{Steps, KeepsStart};
ghost use Rattle.ident.specs.PointView.{point_of};
ghost use Rattle.chain_core.specs.Views.{arrive_reply_of, open_reply_of, submit_reply_of};
ghost use Rattle.script.specs.Names.{AllNames, Bound, Named, bound_to, no_names};
ghost use Rattle.script.specs.Meaning.{Arrives, ForgesBlock, OpensFollower, PrintsMempool, PrintsTip, PrintsUtxo};
ghost use Rattle.script.specs.Meaning.{SubmitsTx, TellsFollower, ForwardsFollower, ClosesFollower, DiscardsBlock};
ghost use Rattle.script.specs.Meaning.{PrintsWhy, PrintsWhere, PrintsBalance, WatchesKeys};
ghost use Rattle.script.specs.PartView.{owner_of};
ghost use Rattle.tx.specs.View.{address_of};
ghost use Rattle.script.specs.Meaning.{formed, is_late_line, Means, parse_within};
ghost use Rattle.script.specs.RequestView.{AreNamed, HasFollowerRoom, key_address_of};
ghost use Rattle.script.specs.Text.{script_size_limit};
ghost use Rattle.scenario.specs.Print.{arrival_text, submission_text};
ghost use Rattle.scenario.specs.Notes.{IsNote};
ghost use Rattle.scenario.specs.NoteView.{AppendsNote};
ghost use Rattle.scenario.specs.Indexes.{Indexes as PlainIndexes, first_index, indexes_opened, no_indexes};
ghost use Rattle.scenario.specs.IndexView.{AreIndexes, key_index_of};
ghost use Rattle.scenario.specs.Run.{Scene, entry, names_opened, opening_scene};
ghost use Rattle.scenario.specs.SessionView.{Forges, Holds, IsDone, IsObeyed, IsTold};

use crate::answers::{print_where, print_why};
use crate::balance::balance_lines;
use crate::form::formed;
use crate::indexes::Indexes;
use crate::key_index::KeyIndex;
use crate::notes::{note_arrival, note_submission};
use crate::print::{
    print_arrival, print_closing, print_discarding, print_forging, print_forwarding, print_mempool,
    print_next, print_opening, print_submission, print_tip, print_utxo,
};
use chain_core::{ArriveReply, Core, FollowerId, ForgeFault, OpenFollowerFault};
use genesis::{Genesis, Scheme};
use ident::{BlockHash, Point, TxId};
use mempool::SubmitReply;
use script::{Form, KeyAddress, LinePlace, Name, Names, Owner, Request, Stop};
use std::alloc::{AllocError, Global};
use tx::Address;
use witness_pool::SigScheme;

/// What a line prints, a note aside, is at most its own name longer than this, whose numbers are the greatest ones. A
/// name that a follower is told has at most 16 letters, and is shorter than these numbers.
const LONGEST_LINE: &[u8] =
    b"arrive-ext : kept back 18446744073709551615 added 18446744073709551615\n";

/// The node, with what names are bound to and the indexes beside its followers.
pub struct Session<'g, S: SigScheme> {
    alloc: Global,
    core: Core<S>,
    names: Names,
    indexes: Indexes<'g>,
}

// By hand, so that each exit calls it: the derived one is copied to each exit of each owner.
impl<'g, S: SigScheme> Drop for Session<'g, S> {
    fn drop(self) {
        let Session {
            alloc: _,
            core: _,
            names: _,
            indexes: _,
        } = self;
    }
}

/// Room for what a line with this name prints.
fn line_room(alloc: Global, name: Name<'_>) -> Result<Vec<u8>, Stop>
    ensures empty { IfOk result (λ line. line.items ≡ []) }
    ensures memory { IfErr result (λ stop. stop ≡ Stop.OutOfMemory) }
{
    match Vec::with_capacity(alloc, LONGEST_LINE.len() + name.text.len()) {
        Ok(line) => Ok(line),
        Err(AllocError) => Err(Stop::OutOfMemory),
    }
}

/// The bytes of a name that has some.
fn bytes_named<'a>(names: &'a Names, name: &[u8]) -> &'a [u8]
    ensures { (all : AllNames) → AreNamed names.entry.now all → (bound : Bound)
        → bound_to name.now all.of_bytes ≡ Some bound → result.now ≡ bound.bytes }
{
    match names.bytes_of(name) {
        Some(bytes) => bytes,
        None => b"".as_slice(),
    }
}

/// Bytes arrive at the core.
fn arrive<S: SigScheme>(
    alloc: Global,
    core: &mut Core<S>,
    form: Form,
    bytes: &[u8],
) -> Result<ArriveReply, AllocError>
    ensures step { Steps S.verifies core.old (Arrive (formed form bytes.now)) (arrive_reply_of result) core.new }
    ensures start { KeepsStart core.old core.new }
{
    let bytes = formed(alloc, form, bytes)?;
    core.arrive(&bytes)
}

/// The transaction of a name is submitted to the core.
fn submit<S: SigScheme>(
    core: &mut Core<S>,
    names: &Names,
    name: &[u8],
) -> Result<SubmitReply, AllocError>
    ensures step { (all : AllNames) → AreNamed names.now all → (tx : Transaction)
        → bound_to name.now all.of_txs ≡ Some tx
        → Steps S.verifies core.old (Submit (text_of (item_of_transaction tx))) (submit_reply_of result) core.new }
    ensures start { KeepsStart core.old core.new }
{
    let Some(tx) = names.tx_of(name) else {
        return Err(AllocError);
    };
    let bytes = tx.encode()?;
    core.submit(&bytes)
}

/// A block is forged, and gets a name that is free: how many bytes it has, or why there is none. Err where there is no
/// memory for the name.
fn forge<S: SigScheme>(
    core: &Core<S>,
    names: &mut Names,
    name: &[u8],
    slot: u64,
) -> Result<Result<usize, ForgeFault>, AllocError>
    ensures { IfOk result (λ answer. (s : Scene) → Stands core.now s.state → AreNamed names.old s.names
        → bound_to name.now s.names.of_bytes ≡ None
        → Forges (network_held core.now S.verifies) s name.now slot answer names.new) }
{
    match core.forge(slot) {
        Ok(forged) => {
            let size = forged.bytes.len();
            names.bind_block(name, forged.bytes, forged.point)?;
            Ok(Ok(size))
        }
        Err(fault) => Ok(Err(fault)),
    }
}

impl<'g, S: SigScheme> Session<'g, S> {
    /// A session before the first line. Copies the genesis; err where there is no memory for that and for its outputs.
    pub fn new(
        alloc: Global,
        genesis: &'g Genesis,
        scheme: Scheme,
    ) -> Result<Session<'g, S>, AllocError>
        ensures holds { IfOk result (λ session.
            Holds session (opening_scene scheme (network_of genesis.now S.verifies))) }
        ensures network { IfOk result (λ session. network_held session.core S.verifies
            ≡ network_of genesis.now S.verifies) }
    {
        let core = Core::new(alloc, genesis.try_clone()?)?;
        Ok(Session::on(alloc, genesis, scheme, core))
    }

    /// A session before the first line, on a core of this genesis. Takes no memory.
    pub fn on(alloc: Global, genesis: &'g Genesis, scheme: Scheme, core: Core<S>) -> Session<'g, S>
        ensures core { result.core ≡ core }
        ensures names { AreNamed result.names (no_names scheme genesis.now.params.network) }
        ensures indexes { AreIndexes result.indexes (no_indexes genesis.now) }
    {
        let names = Names::new(alloc, genesis, scheme);
        let indexes = Indexes::new(alloc, genesis);
        Session {
            alloc,
            core,
            names,
            indexes,
        }
    }

    /// The core as the lines left it.
    pub fn into_core(self) -> Core<S>
        ensures { result ≡ self.entry.core }
    {
        let Session {
            alloc: _,
            core,
            names: _,
            indexes: _,
        } = self;
        core
    }

    /// Appends what the arrival of the bytes of a name prints, with the note on it where it is explained.
    fn print_arrived(
        &self,
        line: &mut Vec<u8>,
        form: Form,
        name: &[u8],
        reply: Result<ArriveReply, AllocError>,
        explain: bool,
    ) -> Result<(), AllocError>
        ensures { OnOk result ((all : AllNames) → AreNamed self.now.names all → (bound : Bound)
            → bound_to name.now all.of_bytes ≡ Some bound → (s t : State) → Stands self.now.core t
            → Step (network_held self.now.core S.verifies) s (Arrive (formed form bound.bytes)) (arrive_reply_of reply)
            t → AppendsNote (line.old.items ++ arrival_text form name.now (arrive_reply_of reply)) line.new.items
            (IsNote (network_held self.now.core S.verifies) explain all.of_bytes s
            (entry (Arrive (formed form bound.bytes)) (arrive_reply_of reply)) t)) }
    {
        print_arrival(line, form, name, reply)?;
        if explain {
            let bytes = bytes_named(&self.names, name);
            note_arrival(
                self.alloc,
                line,
                &self.core,
                &self.names,
                form,
                bytes,
                reply,
            )
        } else {
            Ok(())
        }
    }

    /// The bytes of a name arrive. The room for its line is taken first; a note takes its own, behind the event.
    fn arrive(&mut self, form: Form, name: Name<'_>, explain: bool) -> Result<Vec<u8>, Stop>
        ensures obeyed { (s : Scene) → Holds self.old s → (bound : Bound)
            → bound_to name.entry.text.now s.names.of_bytes ≡ Some bound
            → IsTold (network_held self.old.core S.verifies) explain s (Arrives form name.entry.text.now bound.bytes)
            result self.new }
        ensures start { KeepsStart self.old.core self.new.core }
    {
        let mut line = line_room(self.alloc, name)?;
        let bytes = bytes_named(&self.names, name.text);
        let reply = arrive(self.alloc, &mut self.core, form, bytes);
        match self.print_arrived(&mut line, form, name.text, reply, explain) {
            Ok(()) => Ok(line),
            Err(AllocError) => Err(Stop::OutOfMemory),
        }
    }

    /// Appends what the submission of the transaction of a name prints, with the note on it where it is explained.
    fn print_submitted(
        &self,
        line: &mut Vec<u8>,
        name: &[u8],
        reply: Result<SubmitReply, AllocError>,
        explain: bool,
    ) -> Result<(), AllocError>
        ensures { OnOk result ((all : AllNames) → AreNamed self.now.names all → (tx : Transaction)
            → bound_to name.now all.of_txs ≡ Some tx → (s t : State) → Stands self.now.core t
            → Step (network_held self.now.core S.verifies) s (Submit (text_of (item_of_transaction tx)))
            (submit_reply_of reply) t
            → AppendsNote (line.old.items ++ submission_text name.now (submit_reply_of reply)) line.new.items
            (IsNote (network_held self.now.core S.verifies) explain all.of_bytes s
            (entry (Submit (text_of (item_of_transaction tx))) (submit_reply_of reply)) t)) }
    {
        print_submission(line, name, reply)?;
        if explain {
            note_submission(line, &self.core, &self.names, name, reply)
        } else {
            Ok(())
        }
    }

    /// The transaction of a name is submitted. The room for its line is taken first; a note takes its own, behind the
    /// event.
    fn submit(&mut self, name: Name<'_>, explain: bool) -> Result<Vec<u8>, Stop>
        ensures obeyed { (s : Scene) → Holds self.old s → (tx : Transaction)
            → bound_to name.entry.text.now s.names.of_txs ≡ Some tx
            → IsTold (network_held self.old.core S.verifies) explain s (SubmitsTx name.entry.text.now tx) result
            self.new }
        ensures start { KeepsStart self.old.core self.new.core }
    {
        let mut line = line_room(self.alloc, name)?;
        let reply = submit(&mut self.core, &self.names, name.text);
        match self.print_submitted(&mut line, name.text, reply, explain) {
            Ok(()) => Ok(line),
            Err(AllocError) => Err(Stop::OutOfMemory),
        }
    }

    /// A block is forged in a slot, and gets its name. The room for what it prints is taken first.
    fn forge(&mut self, name: Name<'_>, slot: u64) -> Result<Vec<u8>, Stop>
        ensures obeyed { (s : Scene) → Holds self.old s → bound_to name.entry.text.now s.names.of_bytes ≡ None
            → IsDone (network_held self.old.core S.verifies) s (ForgesBlock name.entry.text.now slot) result self.new }
        ensures start { KeepsStart self.old.core self.new.core }
    {
        let mut line = line_room(self.alloc, name)?;
        let Ok(answer) = forge(&self.core, &mut self.names, name.text, slot) else {
            return Err(Stop::OutOfMemory);
        };
        match print_forging(&mut line, name.text, answer) {
            Ok(()) => Ok(line),
            Err(AllocError) => Err(Stop::OutOfMemory),
        }
    }

    /// A follower is opened, and gets its name. The room for what it prints is taken first.
    fn open(&mut self, name: Name<'_>) -> Result<Vec<u8>, Stop>
        ensures obeyed { HasFollowerRoom self.old.names name.entry.text.now → (s : Scene) → Holds self.old s
            → bound_to name.entry.text.now s.names.of_followers ≡ None
            → IsDone (network_held self.old.core S.verifies) s (OpensFollower name.entry.text.now) result
            self.new }
        ensures start { KeepsStart self.old.core self.new.core }
    {
        let mut line = line_room(self.alloc, name)?;
        let reply = self.core.open();
        if let Ok(id) = reply {
            self.names.bind_follower(name.text, id.number);
        }
        match print_opening(&mut line, b"open", name.text, reply) {
            Ok(()) => Ok(line),
            Err(AllocError) => Err(Stop::OutOfMemory),
        }
    }

    /// A follower is opened with an index of what these keys have, and gets its name. The index and the room for what
    /// the line prints are taken first, its place beside the follower after the opening.
    fn watch(&mut self, name: Name<'_>, keys: Vec<KeyAddress>) -> Result<Vec<u8>, Stop>
        ensures obeyed { HasFollowerRoom self.old.names name.entry.text.now → (s : Scene) → Holds self.old s
            → bound_to name.entry.text.now s.names.of_followers ≡ None
            → IsDone (network_held self.old.core S.verifies) s
            (WatchesKeys name.entry.text.now (map key_address_of keys.items)) result self.new }
        ensures start { KeepsStart self.old.core self.new.core }
    {
        let mut line = line_room(self.alloc, name)?;
        let Ok(index) = self.indexes.first_index(self.alloc, keys) else {
            return Err(Stop::OutOfMemory);
        };
        let reply = self.core.open();
        let Ok(()) = self.stand_beside(name, index, reply) else {
            return Err(Stop::OutOfMemory);
        };
        match print_opening(&mut line, b"watch", name.text, reply) {
            Ok(()) => Ok(line),
            Err(AllocError) => Err(Stop::OutOfMemory),
        }
    }

    /// Once a follower was opened, it gets its name, and the index stands beside it.
    fn stand_beside(
        &mut self,
        name: Name<'_>,
        index: KeyIndex,
        reply: Result<FollowerId, OpenFollowerFault>,
    ) -> Result<(), AllocError>
        ensures names { HasFollowerRoom self.old.names name.entry.text.now → (all : AllNames)
            → AreNamed self.old.names all → bound_to name.entry.text.now all.of_followers ≡ None
            → AreNamed self.new.names (record all {
              of_followers = names_opened all.of_followers name.entry.text.now (open_reply_of reply);
            }) }
        ensures indexes { OnOk result ((known : PlainIndexes) (keys : List (Named PlainAddress))
            → AreIndexes self.old.indexes known → key_index_of index ≡ first_index known.genesis keys
            → AreIndexes self.new.indexes (indexes_opened keys known (open_reply_of reply))) }
        ensures frame { self.new ≡ record self.old { names = self.new.names; indexes = self.new.indexes } }
    {
        let Ok(id) = reply else {
            return Ok(());
        };
        self.names.bind_follower(name.text, id.number);
        self.indexes.put(id.number, index)
    }

    /// The follower of a number is told what comes next. The room for what it prints is taken first; what the keys of an
    /// index beside it have takes its own, behind the event.
    fn next(&mut self, name: Name<'_>, id: u64) -> Result<Vec<u8>, Stop>
        ensures obeyed { (s : Scene) → Holds self.old s → IsDone (network_held self.old.core S.verifies) s
            (TellsFollower name.entry.text.now id) result self.new }
        ensures start { KeepsStart self.old.core self.new.core }
    {
        let mut line = line_room(self.alloc, name)?;
        let reply = self.core.next(FollowerId { number: id });
        let Ok(()) = print_next(&mut line, &self.names, name.text, &reply) else {
            return Err(Stop::OutOfMemory);
        };
        match self
            .indexes
            .tell(self.alloc, &mut line, name.text, id, &reply)
        {
            Ok(()) => Ok(line),
            Err(AllocError) => Err(Stop::OutOfMemory),
        }
    }

    /// The follower of a number is set to the first of the points that is on the selected chain. The room for what it
    /// prints is taken first.
    fn forward(&mut self, name: Name<'_>, id: u64, points: &[Point]) -> Result<Vec<u8>, Stop>
        ensures obeyed { (s : Scene) → Holds self.old s → IsDone (network_held self.old.core S.verifies) s
            (ForwardsFollower name.entry.text.now id (map point_of points.now)) result self.new }
        ensures start { KeepsStart self.old.core self.new.core }
    {
        let mut line = line_room(self.alloc, name)?;
        let reply = self.core.forward(FollowerId { number: id }, points);
        self.indexes.forwarded(id, reply);
        match print_forwarding(&mut line, &self.names, name.text, reply) {
            Ok(()) => Ok(line),
            Err(AllocError) => Err(Stop::OutOfMemory),
        }
    }

    /// The follower of a number is closed. The room for what it prints is taken first.
    fn close(&mut self, name: Name<'_>, id: u64) -> Result<Vec<u8>, Stop>
        ensures obeyed { (s : Scene) → Holds self.old s → IsDone (network_held self.old.core S.verifies) s
            (ClosesFollower name.entry.text.now id) result self.new }
        ensures start { KeepsStart self.old.core self.new.core }
    {
        let mut line = line_room(self.alloc, name)?;
        let reply = self.core.close(FollowerId { number: id });
        self.indexes.closed(id, reply);
        match print_closing(&mut line, name.text, reply) {
            Ok(()) => Ok(line),
            Err(AllocError) => Err(Stop::OutOfMemory),
        }
    }

    /// The block of this hash is to be kept no more. The room for what it prints is taken first.
    fn discard(&mut self, name: Name<'_>, hash: BlockHash) -> Result<Vec<u8>, Stop>
        ensures obeyed { (s : Scene) → Holds self.old s → IsDone (network_held self.old.core S.verifies) s
            (DiscardsBlock name.entry.text.now hash.bytes) result self.new }
        ensures start { KeepsStart self.old.core self.new.core }
    {
        let mut line = line_room(self.alloc, name)?;
        let reply = self.core.discard(hash);
        match print_discarding(&mut line, name.text, reply) {
            Ok(()) => Ok(line),
            Err(AllocError) => Err(Stop::OutOfMemory),
        }
    }

    /// The question where the selected chain ends.
    fn tip(&self) -> Result<Vec<u8>, Stop>
        ensures { (s : Scene) → Holds self.now s
            → IsDone (network_held self.now.core S.verifies) s PrintsTip result self.now }
    {
        let Ok(mut line) = Vec::with_capacity(self.alloc, LONGEST_LINE.len()) else {
            return Err(Stop::OutOfMemory);
        };
        match print_tip(&mut line, &self.names, &self.core.tip()) {
            Ok(()) => Ok(line),
            Err(AllocError) => Err(Stop::OutOfMemory),
        }
    }

    /// The question what waits in the mempool.
    fn mempool(&self) -> Result<Vec<u8>, Stop>
        ensures { (s : Scene) → Holds self.now s
            → IsDone (network_held self.now.core S.verifies) s PrintsMempool result self.now }
    {
        let mut line = Vec::new(self.alloc);
        match print_mempool(&mut line, &self.names, self.core.mempool()) {
            Ok(()) => Ok(line),
            Err(AllocError) => Err(Stop::OutOfMemory),
        }
    }

    /// The question what is unspent on the selected chain.
    fn utxo(&self) -> Result<Vec<u8>, Stop>
        ensures { (s : Scene) → Holds self.now s
            → IsDone (network_held self.now.core S.verifies) s PrintsUtxo result self.now }
    {
        let utxo = self.core.utxo();
        let mut line = Vec::new(self.alloc);
        match print_utxo(&mut line, utxo.len(), utxo.coin(), self.core.fees()) {
            Ok(()) => Ok(line),
            Err(AllocError) => Err(Stop::OutOfMemory),
        }
    }

    /// The question why the block of this hash isn't selected.
    fn why(&self, name: Name<'_>, hash: BlockHash) -> Result<Vec<u8>, Stop>
        ensures { (s : Scene) → Holds self.now s → IsDone (network_held self.now.core S.verifies) s
            (PrintsWhy name.entry.text.now hash.bytes) result self.now }
    {
        let Ok(why) = self.core.why(hash) else {
            return Err(Stop::OutOfMemory);
        };
        let mut line = Vec::new(self.alloc);
        match print_why(&mut line, &self.names, name.text, &why) {
            Ok(()) => Ok(line),
            Err(AllocError) => Err(Stop::OutOfMemory),
        }
    }

    /// The question where the transaction of this identifier stands.
    fn place(&self, name: Name<'_>, id: TxId) -> Result<Vec<u8>, Stop>
        ensures { (s : Scene) → Holds self.now s → IsDone (network_held self.now.core S.verifies) s
            (PrintsWhere name.entry.text.now id.bytes) result self.now }
    {
        let place = self.core.transaction(id);
        let mut line = Vec::new(self.alloc);
        match print_where(&mut line, &self.names, name.text, &self.core, place) {
            Ok(()) => Ok(line),
            Err(AllocError) => Err(Stop::OutOfMemory),
        }
    }

    /// The question how much an owner has, whose address this is.
    fn balance(&self, owner: Owner<'_>, address: &Address) -> Result<Vec<u8>, Stop>
        ensures { (s : Scene) → Holds self.now s → IsDone (network_held self.now.core S.verifies) s
            (PrintsBalance (owner_of owner.entry) (address_of address.now)) result self.now }
    {
        match balance_lines(self.alloc, self.core.utxo(), owner, address) {
            Ok(lines) => Ok(lines),
            Err(AllocError) => Err(Stop::OutOfMemory),
        }
    }

    /// The line in which a transaction was begun that hasn't ended, if there is one.
    pub fn open_line(&self) -> Option<u64>
        ensures { (s : Scene) → Holds self.now s → result ≡ option_map (λ made. made.line) s.names.making }
    {
        self.names.open_line()
    }

    /// Obeys a line that stands here in its script, and answers what it prints, with a note behind it where it is
    /// explained.
    pub fn obey(&mut self, at: LinePlace, line: &[u8], explain: bool) -> Result<Vec<u8>, Stop>
        ensures obeyed { (s : Scene) → Holds self.old s → IsObeyed (network_held self.old.core S.verifies) explain s
            (Means at.number at.before s.names line.now) (is_late_line (parse_within at.before line.now)) result
            self.new }
        ensures start { KeepsStart self.old.core self.new.core }
        ensures size { OnOk result (at.before + length line.now ≤ script_size_limit) }
    {
        match self.names.obey(at, line) {
            Ok(Request::Nothing) => Ok(Vec::new(self.alloc)),
            Ok(Request::Arrive { form, name }) => self.arrive(form, name, explain),
            Ok(Request::Submit { name }) => self.submit(name, explain),
            Ok(Request::Forge { name, slot }) => self.forge(name, slot),
            Ok(Request::Open { name }) => self.open(name),
            Ok(Request::Watch { name, keys }) => self.watch(name, keys),
            Ok(Request::Next { name, id }) => self.next(name, id),
            Ok(Request::Forward { name, id, points }) => self.forward(name, id, &points),
            Ok(Request::Close { name, id }) => self.close(name, id),
            Ok(Request::Discard { name, hash }) => self.discard(name, hash),
            Ok(Request::Tip) => self.tip(),
            Ok(Request::Mempool) => self.mempool(),
            Ok(Request::Utxo) => self.utxo(),
            Ok(Request::Why { name, hash }) => self.why(name, hash),
            Ok(Request::Where { name, id }) => self.place(name, id),
            Ok(Request::Balance { owner, address }) => self.balance(owner, &address),
            Err(stop) => Err(stop),
        }
    }
}
