//! Laws of chains, of the selection rule and of legal histories.
#![tactic(auto)]

ghost use Rattle.std.specs.Prelude.{◌≡◌, ◌≢◌, ℕ, ◌-◌, ◌<◌, ◌≤◌, ◌↔◌, ◌⊎◌, List, ◌++◌, length, take, Contains, Some};
ghost use Rattle.std.specs.Prelude.{slice_get};
ghost use Rattle.model.specs.Block.{Block};
ghost use Rattle.model.specs.Genesis.{Genesis};
ghost use Rattle.model.specs.Signature.{Verifies};
ghost use Rattle.model.specs.Ledger.{Network, network_of};
ghost use Rattle.model.specs.Chain.{IsValidChain, NoneLonger, IsSelection, IsCandidate, HaveDistinctHashes};
ghost use Rattle.model.specs.Chain.{live_blocks, immutable_length, immutable_part, BeginsWith, IsOpening};
ghost use Rattle.model.specs.Follower.{Follower, follower_of, left_to_tell};
ghost use Rattle.model.specs.History.{State, Event, Reply, Kept, OutOfMemory, Entry, Step, IsRun, IsLegal, IsKeptBy};
ghost use Rattle.model.specs.History.{WasSelected, ChainTheorem, AreTold, live_of, length_after};

/// A new node, which is opened on no chain.
pub fn new_nodes()
    // Its chain of no blocks is valid,
    ensures opening { (genesis : Genesis) (verifies : Verifies) → IsOpening (network_of genesis verifies) }
    // all but the last k blocks of a chain are never rolled back,
    ensures immutable { (genesis : Genesis) (verifies : Verifies) (chain : List Block)
        → immutable_length (network_of genesis verifies) chain ≡ length chain - genesis.k }
    // and nothing is kept but what a history brings.
    ensures kept { (genesis : Genesis) (verifies : Verifies) (history : List Entry) (s : State) (b : Block)
        → IsLegal (network_of genesis verifies) history s → Contains s.kept b ↔ IsKeptBy history b }
{}

/// The selection rule has one answer at most, where no two live blocks have one hash.
pub fn one_selection()
    ensures { (network : Network) (kept selected a b : List Block)
        → HaveDistinctHashes (live_blocks network kept selected)
        → IsSelection network kept selected a → IsSelection network kept selected b → a ≡ b }
{}

/// After every legal history no two live blocks have one hash.
pub fn live_hashes_differ()
    ensures { (network : Network) (history : List Entry) (s : State) → IsOpening network → IsLegal network history s
        → HaveDistinctHashes (live_of network s) }
{}

/// A history determines its state: what was answered leaves nothing open.
pub fn one_state()
    ensures { (network : Network) (history : List Entry) (s t : State) → IsOpening network → IsLegal network history s
        → IsLegal network history t → s ≡ t }
{}

/// After a legal history an event has one reply at most, except that memory may run out.
pub fn one_reply()
    ensures { (network : Network) (history : List Entry) (s : State) (event : Event) (reply other : Reply) (t u : State)
        → IsOpening network → IsLegal network history s → reply ≢ OutOfMemory → other ≢ OutOfMemory
        → Step network s event reply t → Step network s event other u → reply ≡ other }
{}

/// The kept blocks are those whose arrival was answered so and that weren't discarded since, and those of the chain
/// that was opened on.
pub fn kept_blocks()
    ensures { (network : Network) (history : List Entry) (s : State) (b : Block) → IsLegal network history s
        → Contains s.kept b ↔ (Contains network.opened b ⊎ IsKeptBy history b) }
{}

/// The selected chain of a legal history.
pub fn selected_chain()
    // It is valid.
    ensures valid { (network : Network) (history : List Entry) (s : State) → IsOpening network
        → IsLegal network history s → IsValidChain network s.chain }
    // No valid chain of kept blocks through the immutable tip is longer.
    ensures longest { (network : Network) (history : List Entry) (s : State) → IsOpening network
        → IsLegal network history s → NoneLonger network s.kept s.chain }
    // It changes only to a longer one.
    ensures longer { (network : Network) (s : State) (event : Event) (reply : Reply) (t : State)
        → Step network s event reply t
        → (t.chain ≡ s.chain) ⊎ (length s.chain < length t.chain) }
    // The replies alone tell how long it is.
    ensures counted { (network : Network) (history : List Entry) (s : State) → IsLegal network history s
        → length s.chain ≡ length_after network history }
{}

/// The immutable part of the selected chain only grows, whatever arrives.
pub fn immutable_part_grows()
    // Every later selected chain begins with it.
    ensures begins { (network : Network) (s : State) (later : List Entry) (t : State) → IsRun network s later t
        → BeginsWith t.chain (immutable_part network s.chain) }
    // So does every later immutable part.
    ensures grows { (network : Network) (s : State) (later : List Entry) (t : State) → IsRun network s later t
        → BeginsWith (immutable_part network t.chain) (immutable_part network s.chain) }
    // A candidate through a later immutable tip is one through the tip of now.
    ensures candidates { (network : Network) (s : State) (later : List Entry) (t : State) (kept candidate : List Block)
        → IsRun network s later t
        → IsCandidate network kept t.chain candidate → IsCandidate network kept s.chain candidate }
{}

/// What is answered of a block that is kept: how many blocks of the old chain are rolled back, and how many of
/// the new one put on.
pub fn change_counts()
    // The two chains share the rest,
    ensures shared { (network : Network) (s : State) (event : Event) (back added : ℕ) (t : State)
        → Step network s event (Kept back added) t
        → (back ≤ length s.chain) × (added ≤ length t.chain)
        × (take (length s.chain - back) s.chain ≡ take (length t.chain - added) t.chain) }
    // and no more: the next blocks differ.
    ensures no_more { (network : Network) (s : State) (event : Event) (back added : ℕ) (t : State) (b c : Block)
        → Step network s event (Kept back added) t
        → slice_get s.chain (length s.chain - back) ≡ Some b → slice_get t.chain (length t.chain - added) ≡ Some c
        → b ≢ c }
    // Never are more than k blocks rolled back.
    ensures bounded { (network : Network) (s : State) (event : Event) (back added : ℕ) (t : State)
        → Step network s event (Kept back added) t
        → back ≤ network.genesis.k }
    // A chain that stays is answered with 0 and 0; one that changes has more put on than rolled back.
    ensures told { (network : Network) (s : State) (event : Event) (back added : ℕ) (t : State)
        → Step network s event (Kept back added) t
        → ((t.chain ≡ s.chain) × (back ≡ 0) × (added ≡ 0)) ⊎ (back < added) }
{}

/// What a follower was told is the beginning of a chain that was selected at some time of the history.
pub fn told_chains()
    ensures { (network : Network) (history : List Entry) (s : State) (id : ℕ) (f : Follower)
        → IsOpening network → IsLegal network history s
        → follower_of s.followers id ≡ Some f → WasSelected network history f.told }
{}

/// A client that puts on and cuts back as it is told has the selected chain after finitely many instructions: one to go
/// back where that is due, and one for each block of the chain that isn't agreed.
pub fn followers_catch_up()
    ensures { (network : Network) (history : List Entry) (s : State) (id : ℕ) (f : Follower) (more : List Entry)
        (t : State) → IsOpening network → IsLegal network history s → follower_of s.followers id ≡ Some f
        → AreTold id more → IsRun network s more t → left_to_tell s.chain f ≤ length more
        → (t.chain ≡ s.chain) × (g : Follower) × (follower_of t.followers id ≡ Some g) × (g.told ≡ t.chain) }
{}

/// The chain theorem holds of every legal history and the state that it leaves.
pub fn chain_theorem()
    ensures { (network : Network) (history : List Entry) (s : State) → IsOpening network → IsLegal network history s
        → ChainTheorem network history s }
{}
