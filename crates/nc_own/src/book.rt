//! The book of owners and grants.

ghost use Rattle.std.specs.Prelude.{◌≡◌, ◌+◌, ◌^◌, ◌<◌, ◌≤◌, true, [], ◌∷◌, ◌++◌, length, replicate, Option, Some, None, IfOk, IfErr, IfSome, MatchOption, OnOk, OnErr, false};
ghost use Rattle.std.specs.List.{find};
ghost use Rattle.std.specs.Option.{option_map};
ghost use Rattle.nc_num.specs.Places.{covers};
ghost use Rattle.nc_model.specs.Grants.{FitsIn, IsGrants, CanAdd, without};
ghost use Rattle.nc_model.specs.Rights.{is_thread as thread_of, hart_may, synced_may, channel_may, grant_of, has_device, served_by, stands_for, resolve};
ghost use Rattle.nc_model.specs.Touches.{first_fault, rights_touch, channel_touch, owner_touch};
ghost use Rattle.nc_model.specs.declared.owners.Owner.TheVariants as owner;
ghost use Rattle.nc_own.specs.Books.{owner_in, transferred, AreIntervals, IsAround, Reaches};

use crate::finds::{
    buffer_place, cpu_may, grant_allows, grant_for_channel, grant_over, grant_with_id, is_thread,
    remove_with_id,
};
use crate::guesses::Guesses;
use crate::intervals::{Interval, end_of, give, index_of, insert_run, interval_at};
use nc_model::{Access, Actor, Grant, Owner, Touch, TouchKind};
use nc_num::{ChanNo, HartNo, MapId, NoMemory, Place, Span};
use std::alloc::Global;
use std::marker::Model;

/// The owners of all bytes of RAM, and the grants of the channels.
///
/// Contracts see the list of the owners of all places, the list of the grants in order of adding, and `spare`, the
/// number of changes that the book has room for.
#[derive(Drop)]
pub struct Book {
    ram: u32,
    intervals: Vec<Interval>,
    grants: Vec<Grant>,
    room: u32,
    guesses: Guesses,
}

impl Model for Book {
    ghost use Rattle.std.specs.Prelude.{◌-◌, vec_len, vec_capacity};
    ghost use Rattle.nc_own.specs.Tiles.{made};
    ghost use Rattle.nc_own.specs.Books.{BookView, IsBook, owners_of};

    ghost Value = { BookView };

    ghost view = { λ b. record { owners = owners_of b.ram (made b.intervals.items); grants = b.grants.items; spare = b.room } };

    ghost invariant = { λ b. IsBook b.ram b.room (vec_capacity b.intervals - vec_len b.intervals) (vec_capacity b.grants - vec_len b.grants) b.intervals.items b.grants.items };
}

impl Book {
    /// Makes a book over `ram` bytes of RAM: all are the pool's, and nothing is granted.
    ///
    /// # Errors
    ///
    /// `NoMemory` where memory runs out.
    pub fn new(alloc: Global, ram: u32) -> Result<Book, NoMemory>
        ensures owners { IfOk result (λ b. b.owners ≡ replicate ram owner.Pool) }
        ensures grants { IfOk result (λ b. b.grants ≡ []) }
    {
        let mut intervals = Vec::with_capacity(alloc, 1)?;
        insert_run(&mut intervals, 0, 0, ram, Owner::Pool);
        Ok(Book {
            ram,
            intervals,
            grants: Vec::new(alloc),
            room: 0,
            guesses: Guesses::new(),
        })
    }

    /// Makes room for `n` changes. Owners, grants and the room that the book had stay.
    ///
    /// # Errors
    ///
    /// `NoMemory` where memory runs out; then the room is unchanged.
    pub fn reserve(&mut self, n: u32) -> Result<(), NoMemory>
        ensures room { OnOk result (n ≤ self.new.spare) }
        ensures kept { self.old.spare ≤ self.new.spare }
        ensures failed { OnErr result (self.new.spare ≡ self.old.spare) }
        ensures owners { self.new.owners ≡ self.old.owners }
        ensures grants { self.new.grants ≡ self.old.grants }
    {
        if self.room < n {
            self.intervals.reserve(3 * n as usize)?;
            self.grants.reserve(n as usize)?;
            self.room = n;
        }
        Ok(())
    }

    /// Returns the intervals of RAM by owner, ascending. Neighbours have different owners. It takes no memory.
    pub fn intervals(&self) -> &[Interval]
        ensures { AreIntervals self.now.owners result.now }
    {
        &self.intervals
    }

    /// Returns the owner of a place of RAM.
    pub fn owner(&self, at: Place) -> Owner
        requires { at.0 < length self.now.owners }
        ensures { result ≡ owner_in self.now.owners at.0 }
    {
        self.interval(at.0).owner
    }

    /// Gives the bytes of a span, which is not empty and lies in RAM, another owner. It takes no memory, and at most
    /// one unit of room.
    pub fn transfer(&mut self, span: Span, owner: Owner)
        requires room { 1 ≤ self.old.spare }
        requires some { 0 < span.len }
        requires inside { span.at + span.len ≤ length self.old.owners }
        ensures owners { self.new.owners ≡ transferred self.old.owners span owner }
        ensures size { length self.new.owners ≡ length self.old.owners }
        ensures grants { self.new.grants ≡ self.old.grants }
        ensures room { self.old.spare ≤ self.new.spare + 1 }
    {
        give(&mut self.intervals, self.ram, span, owner);
        let number = index_of(&self.intervals, span.at);
        self.guesses.note(span, number);
        self.room -= 1;
    }

    /// Adds the grant of a mapping to its channel, after all other grants. The caller shows that its device range meets
    /// no other's and that its mapping has no grant yet. It takes no memory, and at most one unit of room.
    pub fn add(&mut self, g: Grant)
        requires room { 1 ≤ self.old.spare }
        requires can { CanAdd (length self.old.owners) self.old.grants g }
        ensures owners { self.new.owners ≡ self.old.owners }
        ensures grants { self.new.grants ≡ self.old.grants ++ g ∷ [] }
        ensures room { self.old.spare ≤ self.new.spare + 1 }
    {
        self.grants.push_reserved(g);
        self.room -= 1;
    }

    /// Removes the grant of a mapping, where it has one.
    pub fn remove(&mut self, id: MapId)
        ensures owners { self.new.owners ≡ self.old.owners }
        ensures grants { self.new.grants ≡ without self.old.grants id }
        ensures room { self.old.spare ≤ self.new.spare }
    {
        remove_with_id(&mut self.grants, id);
    }

    /// Returns the mapping and the place of its buffer for which a channel may use a place, by the channel's own grants
    /// alone. The result is None exactly where the place lies in none of their device ranges.
    pub fn resolve(&self, c: ChanNo, at: Place) -> Option<(MapId, Place)>
        ensures found { result ≡ resolve self.now.grants c at.0 }
        ensures in_ram { IfSome result (λ p. p.1.0 < length self.now.owners) }
        ensures apart { IsGrants (length self.now.owners) self.now.grants }
    {
        match self.serving(c, at.0) {
            None => None,
            Some(g) => Some((g.id, Place(buffer_place(g, at.0)))),
        }
    }

    /// Judges an access by the owner table: returns Ok where it may use each byte of the span. Memory types are not
    /// looked at.
    ///
    /// A channel uses a byte through a device range of its own grants.
    ///
    /// # Errors
    ///
    /// The touch that the access is, of kind `Load` or `Store` for a hart and `Channel` for a channel. Its holder is
    /// the owner of the first byte at fault; in a transaction of a channel, the owner of the buffer's byte that this
    /// byte stands for through any grant.
    pub fn may(&self, who: Actor, access: Access, span: Span) -> Result<(), Touch>
        requires some { 0 < span.len }
        requires inside { span.at + span.len ≤ length self.now.owners }
        ensures ok { OnOk result (owner_touch (owner_in self.now.owners) self.now.grants who access span ≡ None) }
        ensures err { IfErr result (λ t. owner_touch (owner_in self.now.owners) self.now.grants who access span ≡ Some t) }
    {
        let touch = match who {
            Actor::Hart(h) => self.hart_touch(h, access, span),
            Actor::Chan(c) => self.channel_touch(c, access, span),
        };
        match touch {
            None => Ok(()),
            Some(t) => Err(t),
        }
    }

    /// Returns the first place of a span whose byte is not the hart's own, with its owner, or None exactly where each
    /// byte is the hart's own. It looks at each interval of the span once.
    pub fn first_other(&self, me: HartNo, span: Span) -> Option<(Place, Owner)>
        requires { span.at + span.len ≤ length self.now.owners }
        ensures first { option_map (λ p. p.0.0) result ≡ first_fault (λ x. thread_of me (owner_in self.now.owners x)) span }
        ensures owner { IfSome result (λ p. p.1 ≡ owner_in self.now.owners p.0.0) }
    {
        let end = self.end_of(span);
        let mut at = span.at;
        while at < end {
            let interval = self.interval(at);
            if !is_thread(me, interval.owner) {
                return Some((Place(at), interval.owner));
            }
            at = end_of(interval.span);
        }
        None
    }

    /// Returns the touch that a hart's access is, or None where it is none.
    fn hart_touch(&self, h: HartNo, access: Access, span: Span) -> Option<Touch>
        requires some { 0 < span.len }
        requires inside { span.at + span.len ≤ length self.now.owners }
        ensures { result ≡ rights_touch (owner_in self.now.owners) self.now.grants h access span }
    {
        let at = self.hart_fault(h, access, span)?;
        let kind = match access {
            Access::Read => TouchKind::Load,
            Access::Write => TouchKind::Store,
        };
        Some(Touch {
            kind,
            who: Actor::Hart(h),
            span,
            holder: self.owner(at),
        })
    }

    /// Returns the touch that a channel's transaction is, or None where it is none.
    fn channel_touch(&self, c: ChanNo, access: Access, span: Span) -> Option<Touch>
        requires some { 0 < span.len }
        requires inside { span.at + span.len ≤ length self.now.owners }
        ensures { result ≡ channel_touch (owner_in self.now.owners) self.now.grants c access span }
    {
        let at = self.channel_fault(c, access, span)?;
        Some(Touch {
            kind: TouchKind::Channel,
            who: Actor::Chan(c),
            span,
            holder: self.owner(self.stands_for(at)),
        })
    }

    /// Returns the first place of a span that the hart may not use.
    fn hart_fault(&self, h: HartNo, access: Access, span: Span) -> Option<Place>
        requires { span.at + span.len ≤ length self.now.owners }
        ensures first { option_map (λ p. p.0) result ≡ first_fault (λ x. hart_may self.now.grants h access (owner_in self.now.owners x)) span }
        ensures inside { IfSome result (λ p. p.0 < length self.now.owners) }
    {
        let end = self.end_of(span);
        let mut at = span.at;
        while at < end {
            let interval = self.interval(at);
            if !self.hart_may(h, access, interval.owner) {
                return Some(Place(at));
            }
            at = end_of(interval.span);
        }
        None
    }

    /// Returns the first place of a span that the channel may not use.
    fn channel_fault(&self, c: ChanNo, access: Access, span: Span) -> Option<Place>
        requires { span.at + span.len ≤ length self.now.owners }
        ensures first { option_map (λ p. p.0) result ≡ first_fault (channel_may (owner_in self.now.owners) self.now.grants c access) span }
        ensures inside { IfSome result (λ p. p.0 < length self.now.owners) }
    {
        let end = self.end_of(span);
        let mut at = span.at;
        while at < end {
            match self.channel_reach(c, access, at) {
                None => return Some(Place(at)),
                Some(next) => at = next,
            }
        }
        None
    }

    /// Returns the place after a span of RAM.
    fn end_of(&self, span: Span) -> u32
        requires { span.at + span.len ≤ length self.now.owners }
        ensures { result ≡ span.at + span.len }
    {
        let _ram = &self.ram;
        span.at + span.len
    }

    /// Returns the interval that contains a place of RAM.
    fn interval(&self, at: u32) -> Interval
        requires { at < length self.now.owners }
        ensures around { IsAround self.now.owners at result }
        ensures size { length self.now.owners < 2 ^ 32 }
    {
        interval_at(&self.intervals, self.guesses.at(at), at)
    }

    /// Returns whether a hart may use a byte of this owner.
    fn hart_may(&self, h: HartNo, access: Access, owner: Owner) -> bool
        ensures { result ≡ hart_may self.now.grants h access owner }
    {
        match owner {
            Owner::Thread(g) => g == h,
            Owner::Synced(m) => m.hart == h && self.synced_may(access, m),
            _ => false,
        }
    }

    /// Returns whether the hart of a mapping that is synced for the CPU may make this access to its bytes.
    fn synced_may(&self, access: Access, m: MapId) -> bool
        ensures { result ≡ synced_may access (grant_of self.now.grants m) }
    {
        match grant_with_id(&self.grants, m) {
            None => false,
            Some(g) => cpu_may(access, g.dir),
        }
    }

    /// Returns the end of a range that begins at `at` and that the channel may use whole, or None where it may not use
    /// `at`.
    fn channel_reach(&self, c: ChanNo, access: Access, at: u32) -> Option<u32>
        ensures { MatchOption result (channel_may (owner_in self.now.owners) self.now.grants c access at ≡ false) (Reaches (channel_may (owner_in self.now.owners) self.now.grants c access) at) }
    {
        let g = self.serving(c, at)?;
        let place = buffer_place(g, at);
        let interval = self.interval(place);
        if grant_allows(g, access, interval.owner) {
            let granted = end_of(g.device) - at;
            let owned = end_of(interval.span) - place;
            Some(at + granted.min(owned))
        } else {
            None
        }
    }

    /// Returns the grant through which a channel uses a place.
    fn serving(&self, c: ChanNo, at: u32) -> Option<Grant>
        ensures found { result ≡ served_by self.now.grants c at }
        ensures fits { IfSome result (FitsIn (length self.now.owners)) }
        ensures covers { IfSome result (λ g. covers g.device at ≡ true) }
        ensures size { length self.now.owners < 2 ^ 32 }
        ensures apart { IsGrants (length self.now.owners) self.now.grants }
    {
        let _ram = &self.ram;
        grant_for_channel(&self.grants, c, at)
    }

    /// Returns the place that a place stands for in a transaction.
    fn stands_for(&self, at: Place) -> Place
        requires { at.0 < length self.now.owners }
        ensures place { result.0 ≡ stands_for self.now.grants at.0 }
        ensures inside { result.0 < length self.now.owners }
    {
        match self.granted(at.0) {
            None => at,
            Some(g) => Place(buffer_place(g, at.0)),
        }
    }

    /// Returns the grant whose device range contains a place.
    fn granted(&self, at: u32) -> Option<Grant>
        ensures found { result ≡ find (has_device at) self.now.grants }
        ensures fits { IfSome result (FitsIn (length self.now.owners)) }
        ensures covers { IfSome result (λ g. covers g.device at ≡ true) }
        ensures size { length self.now.owners < 2 ^ 32 }
    {
        let _ram = &self.ram;
        grant_over(&self.grants, at)
    }
}
