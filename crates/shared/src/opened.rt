//! A shared core that is being opened.

ghost use Rattle.std.specs.Prelude.{◌≡◌, [], IfOk, IfErr, OnOk};
ghost use Rattle.shared.specs.Heights.{first_view, has_dealt, new_caller, Deals};
ghost use Rattle.model.specs.Chain.{IsOpening};
ghost use Rattle.shared.specs.Opening.{IsOpenFault, newcomers};
ghost use Rattle.shared.specs.Starts.{network_from, new_start, start_of, IsUntouched};

use crate::caller::Caller;
use crate::caller_seat::CallerSeat;
use crate::desk::Desk;
use crate::heights::{Dealing, HeightSeat, Heights};
use crate::journal::Journal;
use crate::open_fault::OpenFault;
use crate::room::Room;
use crate::shared::Shared;
use atomic_table::Table;
use chain_core::Core;
use genesis::Genesis;
use std::alloc::{AllocError, Global};
use std::marker::{Model, PhantomData};
use std::sync::Mutex;
use witness_pool::SigScheme;

/// The most callers that a shared core has.
pub const MAX_CALLERS: usize = 64;

/// A shared core that has no name yet: its word gets one when the program runs, and [`Opened::named`] takes the name.
pub struct Opened<S: SigScheme> {
    alloc: Global,
    callers: usize,
    core: Core<S>,
    heights: Heights<S>,
    seat: HeightSeat,
}

// By hand, so that each exit calls it: the derived one is copied to each exit of each owner.
impl<S: SigScheme> Drop for Opened<S> {
    fn drop(self) {
        let Opened {
            alloc: _,
            callers: _,
            core: _,
            heights: _,
            seat: _,
        } = self;
    }
}

impl<S: SigScheme> Model for Opened<S> {
    ghost use Rattle.shared.specs.OpenedCores.{OpenedCore, coded_opened, opened_view, IsOpenedInside};

    ghost Value = { OpenedCore };

    ghost coded = { coded_opened };

    ghost view = { opened_view };

    ghost invariant = { IsOpenedInside S.verifies };
}

/// A seat for the calls of a new caller.
fn deal<S: SigScheme>(heights: &Heights<S>, seat: &mut HeightSeat, number: u64) -> HeightSeat
    requires word { heights.now.shared.table_id.words ≡ 1 }
    requires seat { seat.old.table_id ≡ heights.now.shared.table_id }
    requires deals { seat.old.me.0.role ≡ Deals number }
    ensures new { (result.me ≡ (new_caller seat.old.me.0, [])) × (result.table_id ≡ seat.old.table_id) }
    ensures seat { (seat.new.me ≡ (has_dealt seat.old.me.0, seat.old.me.1)) × (seat.new.table_id ≡ seat.old.table_id) }
{
    heights.shared.split_seat::<Dealing>(seat)
}

/// The callers of the numbers below `count`, who made no call and have seen nothing.
fn deal_all<S: SigScheme, B: Room>(
    alloc: Global,
    heights: &Heights<S>,
    seat: &mut HeightSeat,
    count: usize,
) -> Result<Vec<Caller<B>>, AllocError>
    requires word { heights.now.shared.table_id.words ≡ 1 }
    requires table { heights.now.shared.table_id ≡ B.table }
    requires seat { seat.old.table_id ≡ heights.now.shared.table_id }
    requires first { seat.old.me ≡ (first_view B.start, []) }
    ensures all { IfOk result (λ all. all.items ≡ newcomers count) }
    ensures table { seat.new.table_id ≡ seat.old.table_id }
    ensures seat { OnOk result (seat.new.me ≡ (record (first_view B.start) { role = Deals count }, [])) }
{
    let mut all = Vec::with_capacity(alloc, count)?;
    for number in 0..count as u64 {
        let dealt = deal(heights, seat, number);
        let seat_of_caller = CallerSeat {
            number,
            seat: dealt,
            room: PhantomData,
        };
        all.push(Caller {
            seat: seat_of_caller,
        })?;
    }
    Ok(all)
}

impl<S: SigScheme> Opened<S> {
    /// A new core of this genesis for `callers` callers, 1 to 64. Err `BadCallers` where they are fewer or more, and
    /// `OutOfMemory` only where they aren't. Takes what [`Core::new`] takes.
    pub fn new(alloc: Global, genesis: Genesis, callers: usize) -> Result<Opened<S>, OpenFault>
        ensures start { IfOk result (λ opened. opened.start ≡ new_start genesis) }
        ensures callers { IfOk result (λ opened. opened.callers ≡ callers) }
        ensures fault { IfErr result (IsOpenFault callers) }
    {
        if callers == 0 || callers > MAX_CALLERS {
            return Err(OpenFault::BadCallers);
        }
        let core = Core::new(alloc, genesis)?;
        Opened::on(alloc, core, callers)
    }

    /// A shared core on what [`Core::reopen`] opened, to which nothing came since, for `callers` callers, 1 to 64. Its
    /// journal begins there, and its height is that of the chain. Err as for [`Opened::new`]. Takes the memory of one
    /// word.
    pub fn on(alloc: Global, core: Core<S>, callers: usize) -> Result<Opened<S>, OpenFault>
        requires { IsUntouched S.verifies core }
        ensures start { IfOk result (λ opened. opened.start ≡ start_of core) }
        ensures callers { IfOk result (λ opened. opened.callers ≡ callers) }
        ensures fault { IfErr result (IsOpenFault callers) }
    {
        if callers == 0 || callers > MAX_CALLERS {
            return Err(OpenFault::BadCallers);
        }
        let height = core.height();
        let (heights, seat) = Table::of_words(alloc, &[height], &core)?;
        Ok(Opened {
            alloc,
            callers,
            core,
            heights,
            seat,
        })
    }

    /// The shared core under a name, and its callers, with the numbers from 0 on. It is called in a function that is
    /// generic in the name, for which a program passes `Brand`. Err where memory runs out. Linear in the callers.
    pub fn named<B: Room>(self) -> Result<(Shared<S, B>, Vec<Caller<B>>), AllocError>
        requires table { self.table ≡ B.table }
        requires start { self.start ≡ B.start }
        // No caller made a call or has seen anything.
        ensures callers { IfOk result (λ opened. opened.1.items ≡ newcomers self.callers) }
        // What it begins from is sound: the chain that it was opened on is valid, and its blocks have texts.
        ensures opens { OnOk result (IsOpening (network_from B.start S.verifies)) }
    {
        let Opened {
            alloc,
            callers,
            core,
            heights,
            mut seat,
        } = self;
        let all = deal_all(alloc, &heights, &mut seat, callers)?;
        let journal = Journal {
            writer: seat,
            room: PhantomData,
        };
        let desk = Desk { core, journal };
        let desk = Mutex::new(desk);
        Ok((Shared { heights, desk }, all))
    }
}
