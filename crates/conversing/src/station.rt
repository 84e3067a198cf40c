//! Those who wait to be told what comes next.

ghost use Rattle.std.specs.Prelude.{◌≡◌, ◌≢◌, ◌<◌, ◌≤◌, ◌+◌, ◌++◌, ℕ, [], true, false, if◌then◌else◌, slice_set};
ghost use Rattle.std.specs.Prelude.{is_some, replicate};
ghost use Rattle.std.specs.Prelude.{IfOk, IfSome, MatchOption, OnErr, OnOk, OnSome, Some, length, vec_len};
ghost use Rattle.std.specs.Prelude.{option_to_list, slice_get, vec_capacity};
ghost use Rattle.conversing.specs.Waiting.{IsQuiet, NobodyIsForgotten, OnlyWhoWaited, TellsNotice, Told, AnswersNext};

use crate::source::Source;
use std::alloc::{AllocError, Global};

/// What is to be told to the follower who waited at a place.
#[derive(Drop)]
pub struct Notice {
    pub place: usize,
    /// The line, or that there is no memory for it, which ends the follower's lane.
    pub line: Result<Vec<u8>, AllocError>,
}

/// What a follower is answered that asks what comes next.
#[derive(Drop)]
pub enum Answer {
    /// This line.
    Now(Vec<u8>),
    /// A notice, once there is something.
    Later,
}

/// What an arrival leads to.
#[derive(Drop)]
pub struct Arrived {
    pub reply: Vec<u8>,
    pub notices: Vec<Notice>,
}

/// A source with places for followers, each of whom waits there or doesn't. The number of a place is that of its
/// follower.
#[derive(Drop)]
pub struct Station<S: Source> {
    alloc: Global,
    pub source: S,
    pub waits: Vec<bool>,
}

/// Puts a notice behind others, if there is one. There is room for it.
fn put(notices: &mut Vec<Notice>, notice: Option<Notice>)
    requires { vec_len notices.old < vec_capacity notices.old }
    ensures items { notices.new.items ≡ notices.old.items ++ option_to_list notice }
    ensures len { vec_len notices.new ≤ vec_len notices.old + 1 }
    ensures capacity { vec_capacity notices.old ≤ vec_capacity notices.new }
{
    if let Some(notice) = notice {
        if notices.push(notice).is_err() {
            unreachable!();
        }
    }
}

impl<S: Source> Station<S> {
    /// So many places, at which nobody waits.
    pub fn new(alloc: Global, source: S, places: usize) -> Result<Station<S>, AllocError>
        ensures source { IfOk result (λ station. station.source ≡ source) }
        ensures waits { IfOk result (λ station. station.waits.items ≡ replicate places false) }
        ensures quiet { IfOk result (λ station. IsQuiet (S.has_news station.source) station.waits.items) }
    {
        let waits = vec![in alloc; false; places]?;
        Ok(Station {
            alloc,
            source,
            waits,
        })
    }

    /// What is to be told at a place, if someone waits there and something is. He waits no longer then.
    fn notice_at(&mut self, place: usize) -> Option<Notice>
        requires { place < length self.old.waits.items }
        ensures quiet { slice_get self.new.waits.items place ≡ Some true → S.has_news self.new.source place ≡ false }
        ensures others { (other : ℕ) → other ≢ place
            → S.has_news self.new.source other ≡ S.has_news self.old.source other }
        ensures waits { self.new.waits.items
            ≡ (if is_some result then slice_set self.old.waits.items place false else self.old.waits.items) }
        ensures waited { OnSome result (slice_get self.old.waits.items place ≡ Some true) }
        ensures place { IfSome result (λ notice. notice.place ≡ place) }
        ensures told { MatchOption result (self.new.source ≡ self.old.source)
            (λ notice. TellsNotice S.tells self.old.source notice self.new.source) }
    {
        if !self.waits[place] {
            return None;
        }
        match self.source.told(place as u64) {
            Ok(None) => None,
            Ok(Some(line)) => {
                self.waits[place] = false;
                Some(Notice {
                    place,
                    line: Ok(line),
                })
            }
            Err(AllocError) => {
                self.waits[place] = false;
                Some(Notice {
                    place,
                    line: Err(AllocError),
                })
            }
        }
    }

    /// What is to be told to those who wait, each of whom waits no longer then. Looks at each place once, and takes no
    /// memory but for the lines.
    fn notices(&mut self, room: Vec<Notice>) -> Vec<Notice>
        requires empty { room.items ≡ [] }
        requires room { length self.old.waits.items ≤ vec_capacity room }
        ensures quiet { IsQuiet (S.has_news self.new.source) self.new.waits.items }
        ensures forgotten { NobodyIsForgotten self.old.waits.items self.new.waits.items result.items }
        ensures waited { OnlyWhoWaited self.old.waits.items result.items }
        ensures told { Told S.tells self.old.source result.items self.new.source }
    {
        let mut notices = room;
        for place in 0..self.waits.len() {
            let notice = self.notice_at(place);
            put(&mut notices, notice);
        }
        notices
    }

    /// The follower at a place asks what comes next, and waits there if there is nothing. Where memory runs out he
    /// doesn't, and the source stays as it was.
    pub fn next(&mut self, place: usize) -> Result<Answer, AllocError>
        requires place { place < length self.old.waits.items }
        requires quiet { IsQuiet (S.has_news self.old.source) self.old.waits.items }
        ensures quiet { IsQuiet (S.has_news self.new.source) self.new.waits.items }
        ensures ok { IfOk result (λ answer. AnswersNext S.tells self.old.source self.old.waits.items place answer
            self.new.source self.new.waits.items) }
        ensures err { OnErr result ((self.new.source ≡ self.old.source)
            × (self.new.waits.items ≡ slice_set self.old.waits.items place false)) }
    {
        self.waits[place] = false;
        match self.source.told(place as u64) {
            Ok(Some(line)) => Ok(Answer::Now(line)),
            Ok(None) => {
                self.waits[place] = true;
                Ok(Answer::Later)
            }
            Err(AllocError) => Err(AllocError),
        }
    }

    /// Bytes arrive: the reply, and what is to be told to those who waited. Nobody waits then to whom something is to
    /// be told, and each who waits no longer has a notice. Where memory runs out nothing changes. Looks at each place
    /// once.
    pub fn arrive(&mut self, bytes: &[u8]) -> Result<Arrived, AllocError>
        ensures quiet { OnOk result (IsQuiet (S.has_news self.new.source) self.new.waits.items) }
        ensures forgotten { IfOk result (λ arrived.
            NobodyIsForgotten self.old.waits.items self.new.waits.items arrived.notices.items) }
        ensures waited { IfOk result (λ arrived. OnlyWhoWaited self.old.waits.items arrived.notices.items) }
        ensures told { IfOk result (λ arrived. (mid : S) × S.takes self.old.source bytes.now mid arrived.reply.items
            × Told S.tells mid arrived.notices.items self.new.source) }
        ensures err { OnErr result ((self.new.source ≡ self.old.source)
            × (self.new.waits.items ≡ self.old.waits.items)) }
    {
        let room = Vec::with_capacity(self.alloc, self.waits.len())?;
        let reply = self.source.arrive(bytes)?;
        let notices = self.notices(room);
        Ok(Arrived { reply, notices })
    }
}
