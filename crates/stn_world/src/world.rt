ghost use Rattle.std.specs.{Prelude.{◌≡◌, ◌≢◌, ◌+◌, true, ◌-◌, ◌<◌, ◌≤◌, length, map, MatchOption, IfSome, IsOk, IfOk, IfErr, OnOk, OnErr}, FinMap.contains_key, Rc.rc_value};
ghost use Rattle.stn_refusal.specs.{declared.code.Code.TheVariants.{NoSite, TooManyPackets, NoPacket}, Refusals.{refused, out_of_memory}};
ghost use Rattle.stn_records.specs.{Id.{most_sites, IsSite}, Content.{no_content, part_of, IsPart}};
ghost use Rattle.stn_site.specs.{Held.difference, Change.{change_id, IsAgain}, declared.change.Change.TheVariants.{Add, Amend, Withdraw, Done}};
ghost use Rattle.stn_world.specs.{Faults.{IsOpeningFailure, part_failure}, Parts.holds_all, Steps.{changed, merged, sent, delivered, IsStep, IsMergeFailure, IsSending, send_refusal, IsDeliveryFailure}, World.{most_packets, HasSite, HasPacket, opening_world, content_at, packet_at, next_id_at}};

use std::alloc::Allocator;
use std::marker::Model;
use std::rc::Rc;
use stn_lift::Base;
use stn_net::Event;
use stn_records::{Id, MOST_SITES, PartFault, Records, Site};
use stn_refusal::{Code, Failure, Fault};
use stn_replica::Replica;
use stn_site::{AskedBound, Change, SiteCopy, SitePlan};
use stn_time::Ms;

/// The greatest number of a packet.
pub const MOST_PACKETS: usize = 256;

/// Several sites over one plan, each with its copy of it, and the packets that were sent. The copies are replicas, or site plans, which
/// keep no matrix.
#[derive(Drop)]
pub struct World<A: Allocator + Copy, C: SiteCopy<A> = Replica<A>> {
    base: Rc<Base<A>, A>,
    // From site 1 on.
    copies: Vec<C, A>,
    // From packet 1 on.
    packets: Vec<Records<A>, A>,
}

impl<A: Allocator + Copy, C: SiteCopy<A>> Model for World<A, C> {
    ghost use Rattle.std.specs.{Prelude.map, Rc.rc_value};
    ghost use Rattle.stn_world.specs.{World.{World, coded_world}, Sites.world_of, Whole.IsSoundWorld};

    ghost Value = { World };

    ghost coded = { coded_world };

    ghost view = { λ w. world_of (rc_value w.base) (map C.held w.copies.items) w.packets.items };

    ghost invariant = { λ w. IsSoundWorld (rc_value w.base) (map C.held w.copies.items) w.packets.items };
}

impl<A: Allocator + Copy> World<A, Replica<A>> {
    /// So many sites over one plan, numbered from 1, each with a replica that holds nothing yet.
    ///
    /// Refused in this order: `NoSite`, where there are none or more than 64; `Memory`.
    pub fn new(alloc: A, base: Rc<Base<A>, A>, sites: u8) -> Result<World<A, Replica<A>>, Failure>
        ensures opening { IfOk result (λ world. world ≡ opening_world (rc_value base) sites) }
        ensures accepted { OnOk result (IsSite sites) }
        ensures fault { IfErr result (IsOpeningFailure sites) }
    {
        let site = first_of(sites)?;
        let first = Replica::new(alloc, site, base.clone()?)?;
        World::opened(alloc, base, first, sites)
    }
}

impl<A: Allocator + Copy> World<A, SitePlan<A>> {
    /// So many sites over one plan, numbered from 1, each with a site plan that holds nothing yet.
    ///
    /// Refused in this order: `NoSite`, where there are none or more than 64; `Memory`.
    pub fn of_plans(
        alloc: A,
        base: Rc<Base<A>, A>,
        sites: u8,
    ) -> Result<World<A, SitePlan<A>>, Failure>
        ensures opening { IfOk result (λ world. world ≡ opening_world (rc_value base) sites) }
        ensures accepted { OnOk result (IsSite sites) }
        ensures fault { IfErr result (IsOpeningFailure sites) }
    {
        let site = first_of(sites)?;
        let first = SitePlan::new(alloc, site, base.clone()?);
        World::opened(alloc, base, first, sites)
    }
}

impl<A: Allocator + Copy, C: SiteCopy<A>> World<A, C> {
    // So many sites over one plan, of which this is the first, and the others are made beside it.
    fn opened(alloc: A, base: Rc<Base<A>, A>, first: C, sites: u8) -> Result<World<A, C>, Failure>
        requires sites { IsSite sites }
        requires site { (C.held first).site ≡ 1 }
        requires source { (C.held first).source ≡ rc_value base }
        requires empty { (C.held first).state ≡ no_content }
        ensures opening { IfOk result (λ world. world ≡ opening_world (rc_value base) sites) }
        ensures fault { IfErr result (λ failure. failure ≡ out_of_memory) }
    {
        let mut copies = Vec::with_capacity(alloc, usize::from(sites))?;
        copies.push(first)?;
        for before in 1..sites {
            let site = Site::new(before + 1).unwrap();
            let copy = copies[0].beside(site)?;
            copies.push(copy)?;
        }
        Ok(World {
            base,
            copies,
            packets: Vec::new(alloc),
        })
    }

    /// How many sites there are, from 1 to 64.
    pub fn sites(&self) -> u8
        ensures count { result ≡ length self.now.sites }
        ensures some { 1 ≤ result }
        ensures most { result ≤ most_sites }
    {
        self.copies.len() as u8
    }

    /// The plan's base.
    pub fn base(&self) -> &Base<A>
        ensures { result.now ≡ self.now.source }
    {
        &self.base
    }

    /// The copy of a site, a replica where the world was made of replicas; none where there is no such site.
    pub fn replica(&self, site: u32) -> Option<&C>
        ensures there { MatchOption result (¬ HasSite self.now site) (λ copy. HasSite self.now site) }
        ensures site { IfSome result (λ copy. (C.held copy.now).site ≡ site) }
        ensures source { IfSome result (λ copy. (C.held copy.now).source ≡ self.now.source) }
        ensures state { IfSome result (λ copy. (C.held copy.now).state ≡ content_at self.now site) }
    {
        match self.place_of(site) {
            Ok(place) => Some(&self.copies[place]),
            Err(_) => None,
        }
    }

    /// Makes a change at a site, and returns the id of the record that it adds, or the id that it withdraws.
    ///
    /// Refused in this order: `NoSite`; the faults of `SitePlan::change`. After a fault all is as before.
    pub fn change(&mut self, site: u32, asked: &Change) -> Result<Id, Failure>
        ensures id { IfOk result (λ id. id ≡ change_id asked.now (next_id_at self.old site)) }
        ensures step { IsStep self.old (changed site asked.now) result self.new }
        ensures again { HasSite self.old site → IsAgain asked.now (content_at self.old site) → IsOk result × (self.new ≡ self.old) }
    {
        let place = self.place_of(site)?;
        let copy = &mut self.copies[place];
        copy.change(asked).map_err(Failure::from)
    }

    /// Adds a bound at a site, under that site's next id, which is returned.
    ///
    /// Refused in this order: `NoSite`; the faults of `SitePlan::add`. After a fault all is as before.
    pub fn add(&mut self, site: u32, from: Event, to: Event, lo: Ms, hi: Ms) -> Result<Id, Failure>
        ensures id { IfOk result (λ id. id ≡ next_id_at self.old site) }
        ensures step { IsStep self.old (changed site (Add (difference from to lo hi))) result self.new }
    {
        self.change(site, &Change::Add(AskedBound::new(from, to, lo, hi)))
    }

    /// Records at a site at which time it executed an event, under that site's next id, which is
    /// returned.
    ///
    /// Refused in this order: `NoSite`; the faults of `SitePlan::done`. After a fault all is as before.
    pub fn done(&mut self, site: u32, event: Event, time: Ms) -> Result<Id, Failure>
        ensures id { IfOk result (λ id. id ≡ next_id_at self.old site) }
        ensures step { IsStep self.old (changed site (Done event time)) result self.new }
    {
        self.change(site, &Change::Done(event, time))
    }

    /// Amends at a site a record that it knows: adds a bound under that site's next id, which is returned,
    /// and replaces the record by it, for good. Wherever the new record comes, the replaced one is not
    /// live.
    ///
    /// Refused in this order: `NoSite`; the faults of `SitePlan::amend`. After a fault all is as before.
    pub fn amend(
        &mut self,
        site: u32,
        old: Id,
        from: Event,
        to: Event,
        lo: Ms,
        hi: Ms,
    ) -> Result<Id, Failure>
        ensures id { IfOk result (λ id. id ≡ next_id_at self.old site) }
        ensures step { IsStep self.old (changed site (Amend old (difference from to lo hi))) result self.new }
    {
        self.change(site, &Change::Amend(old, AskedBound::new(from, to, lo, hi)))
    }

    /// Withdraws at a site a record that it knows, for good; one that is withdrawn there already changes
    /// nothing.
    ///
    /// Refused in this order: `NoSite`; the faults of `SitePlan::withdraw`. After a fault all is as
    /// before.
    pub fn withdraw(&mut self, site: u32, id: Id) -> Result<(), Failure>
        ensures step { IsStep self.old (changed site (Withdraw id)) result self.new }
        ensures again { HasSite self.old site → contains_key (content_at self.old site).tombstones id ≡ true → IsOk result × (self.new ≡ self.old) }
    {
        self.change(site, &Change::Withdraw(id))?;
        Ok(())
    }

    /// Takes in at a site all that another holds. If the site holds all of it already, as when it merges
    /// itself, that changes nothing and asks for no memory. Any two sites agree on every id, so no merge
    /// is refused for an id or an event.
    ///
    /// Refused in this order: `NoSite`, for either site; `Full` and `Memory` of `SitePlan::take`. After
    /// a fault all is as before.
    pub fn merge(&mut self, site: u32, other: u32) -> Result<(), Failure>
        ensures step { IsStep self.old (merged site other) result self.new }
        ensures itself { HasSite self.old site → site ≡ other → IsOk result }
        ensures again { HasSite self.old site → HasSite self.old other → IsPart (content_at self.old other) (content_at self.old site)
            → IsOk result × (self.new ≡ self.old) }
        ensures agreed { IfErr result IsMergeFailure }
    {
        let ours = self.place_of(site)?;
        let theirs = self.place_of(other)?;
        if ours == theirs {
            return Ok(());
        }
        // The copy that takes is out of the list meanwhile, which keeps room for it: to put it back asks for no memory.
        let mut copy = self.copies.remove(ours);
        let from = &self.copies[place_without(ours, theirs)];
        let outcome = copy.take(from.plan().records());
        let _back = self.copies.insert(ours, copy);
        outcome.map_err(Failure::from)
    }

    /// Sends all that a site holds, as a new packet, whose number is returned: 1 for the first. A packet
    /// stays for good; it may be lost, delivered late, or more than once.
    ///
    /// Refused in this order: `NoSite`; `TooManyPackets`, where there are 256; `Memory`. After a fault
    /// all is as before.
    pub fn send_all(&mut self, site: u32) -> Result<u16, Failure>
        ensures step { IsSending self.old (sent site (content_at self.old site)) (send_refusal self.old site true) result self.new }
    {
        let place = self.place_of(site)?;
        let number = self.next_packet()?;
        let whole = self.copies[place].plan().records().copy()?;
        self.packets.push(whole)?;
        Ok(number)
    }

    /// Sends some of the records and withdrawn ids that a site holds, and nothing else, as a new packet,
    /// whose number is returned: 1 for the first. A record that replaces another is sent with its entry.
    /// An id may stand in a list twice.
    ///
    /// Refused in this order: `NoSite`; `TooManyPackets`, where there are 256; `Unknown`,
    /// where the site lacks a record or a withdrawn id of the lists; `Memory`. After a fault all is
    /// as before.
    pub fn send(&mut self, site: u32, records: &[Id], tombstones: &[Id]) -> Result<u16, Failure>
        ensures step { IsSending self.old (sent site (part_of (content_at self.old site) records.now tombstones.now))
            (send_refusal self.old site (holds_all (content_at self.old site) records.now tombstones.now)) result self.new }
    {
        let place = self.place_of(site)?;
        let number = self.next_packet()?;
        let part = self.copies[place]
            .plan()
            .records()
            .part(records, tombstones)
            .map_err(part_failure)?;
        self.packets.push(part)?;
        Ok(number)
    }

    /// Takes in at a site all that a packet holds. If the site holds all of it already, that changes
    /// nothing and asks for no memory. Any site agrees with any packet on every id, so no delivery is
    /// refused for an id or an event.
    ///
    /// Refused in this order: `NoSite`; `NoPacket`, where no packet has the number; `Full` and `Memory`
    /// of `SitePlan::take`. After a fault all is as before.
    pub fn deliver(&mut self, site: u32, packet: u32) -> Result<(), Failure>
        ensures step { IsStep self.old (delivered site packet) result self.new }
        ensures again { HasSite self.old site → HasPacket self.old packet → IsPart (packet_at self.old packet) (content_at self.old site)
            → IsOk result × (self.new ≡ self.old) }
        ensures agreed { IfErr result IsDeliveryFailure }
    {
        let place = self.place_of(site)?;
        let from = self.packet_place(packet)?;
        self.copies[place]
            .take(&self.packets[from])
            .map_err(Failure::from)
    }

    // The place of a site's copy.
    fn place_of(&self, site: u32) -> Result<usize, Failure>
        ensures place { IfOk result (λ place. place ≡ site - 1) }
        ensures within { IfOk result (λ place. place < length self.now.sites) }
        ensures there { OnOk result (HasSite self.now site) }
        ensures missing { IfErr result (λ failure. failure ≡ refused NoSite) }
        ensures refused { OnErr result (¬ HasSite self.now site) }
    {
        if 1 <= site && site as usize <= self.copies.len() {
            Ok(site as usize - 1)
        } else {
            Err(Failure::refused(Code::NoSite))
        }
    }

    // The number of the next packet.
    fn next_packet(&self) -> Result<u16, Failure>
        ensures number { IfOk result (λ number. number ≡ length self.now.packets + 1) }
        ensures room { OnOk result (length self.now.packets < most_packets) }
        ensures full { IfErr result (λ failure. failure ≡ refused TooManyPackets) }
        ensures refused { OnErr result (most_packets ≤ length self.now.packets) }
    {
        if self.packets.len() < MOST_PACKETS {
            Ok(self.packets.len() as u16 + 1)
        } else {
            Err(Failure::refused(Code::TooManyPackets))
        }
    }

    // The place of a packet.
    fn packet_place(&self, packet: u32) -> Result<usize, Failure>
        ensures place { IfOk result (λ place. place ≡ packet - 1) }
        ensures within { IfOk result (λ place. place < length self.now.packets) }
        ensures there { OnOk result (HasPacket self.now packet) }
        ensures missing { IfErr result (λ failure. failure ≡ refused NoPacket) }
        ensures refused { OnErr result (¬ HasPacket self.now packet) }
    {
        if 1 <= packet && packet as usize <= self.packets.len() {
            Ok(packet as usize - 1)
        } else {
            Err(Failure::refused(Code::NoPacket))
        }
    }
}

// The first of so many sites; none where a world may not have so many.
fn first_of(sites: u8) -> Result<Site, Failure>
    ensures first { IfOk result (λ site. site ≡ 1) }
    ensures accepted { OnOk result (IsSite sites) }
    ensures fault { IfErr result (λ failure. failure ≡ refused NoSite) }
    ensures refused { OnErr result (¬ IsSite sites) }
{
    if 1 <= sites && sites <= MOST_SITES {
        Ok(Site::new(1).unwrap())
    } else {
        Err(Failure::refused(Code::NoSite))
    }
}

// The place of one of several things where another is taken out.
fn place_without(out: usize, place: usize) -> usize
    requires { place ≢ out }
    ensures before { place < out → result ≡ place }
    ensures after { out < place → result + 1 ≡ place }
{
    if place < out { place } else { place - 1 }
}

// Why a part is not sent.
fn part_failure(fault: PartFault) -> Failure
    ensures { result ≡ part_failure fault }
{
    match fault {
        PartFault::Unknown => Failure::refused(Code::Unknown),
        PartFault::Memory => Failure::Failed(Fault::Memory),
    }
}
