ghost use Rattle.std.specs.Prelude.{◌≡◌, ◌≤◌, ◌<◌, ◌∷◌, List, length, IfOk};
ghost use Rattle.topology.specs.Told.{locations_of};
ghost use Rattle.topology.specs.declared.node.Location.{Location};
ghost use Rattle.std.specs.FinMap.{empty};
ghost use Rattle.master.specs.Turns.{OnceHeard, IsHeard, IsBeat, IsAssign, IsLookup, IsGrow, IsMade, IsVolumes, IsWritableVolume, made_report};

use crate::fault::MasterFault;
use crate::heartbeat::{Heartbeat, greatest_volume};
use crate::turns::{Assigned, Grown, GrownNodes};
use file_id::Fid;
use needle::Placement;
use std::alloc::{AllocError, Global};
use topology::{Location, Topology, TopologyFault, VolumeReport};
use weed_base::Name;

/// The size in bytes of a volume without needles.
const EMPTY: u64 = 8;

/// The master of a store.
#[derive(Debug, Drop)]
pub struct Master {
    topology: Topology,
    /// The next key that it gives.
    next: u64,
    /// The greatest number of a volume that was grown or told, 0 where there is none.
    greatest: u32,
    /// The size in bytes from which on a volume isn't written.
    limit: u64,
}

impl Master {
    /// Of no nodes; volumes of this many bytes aren't written. Takes no memory.
    pub fn new(alloc: Global, limit: u64) -> Master
        ensures { result ≡ record { topology = empty; next = 1; greatest = 0; limit = limit } }
    {
        Master {
            topology: Topology::new(alloc),
            next: 1,
            greatest: 0,
            limit,
        }
    }

    /// Each silent node leaves.
    fn hear(&mut self, now: u64)
        ensures { IsHeard now self.old self.new }
    {
        self.topology.expire(now);
    }

    /// Takes a node in with its reports. `KeysSpent` comes exactly for a greatest key of 2^64 - 1, and `TooManyNodes`
    /// exactly where 1,024 others are there. In any case each silent node leaves first.
    pub fn beat(&mut self, alloc: Global, beat: &Heartbeat, now: u64) -> Result<(), MasterFault>
        ensures { OnceHeard now self.old (λ heard. IsBeat beat.now now heard result self.new) }
    {
        self.hear(now);
        self.take(alloc, beat, now)
    }

    /// Takes a node in with its reports.
    fn take(&mut self, alloc: Global, beat: &Heartbeat, now: u64) -> Result<(), MasterFault>
        ensures { IsBeat beat.now now self.old result self.new }
    {
        if beat.greatest == u64::MAX {
            return Err(MasterFault::KeysSpent { next: self.next });
        }
        let volumes = beat.volumes.as_slice();
        match self.topology.report(alloc, &beat.node, volumes, now) {
            Ok(()) => {}
            Err(TopologyFault::TooManyNodes) => return Err(MasterFault::TooManyNodes),
            Err(_) => return Err(MasterFault::Memory),
        }
        self.next = self.next.max(beat.greatest + 1);
        self.greatest = self.greatest.max(greatest_volume(volumes));
        Ok(())
    }

    /// Gives `count` keys for needles of a volume of this kind that may be written, at least one key. `NoWritable`
    /// comes exactly where no such volume is there, and `KeysSpent` where the next key and the count pass 2^64 - 1. In
    /// any case each silent node leaves first.
    pub fn assign(
        &mut self,
        alloc: Global,
        placement: Placement,
        ttl: [u8; 2],
        count: u64,
        cookie: u32,
        now: u64,
    ) -> Result<Assigned, MasterFault>
        requires { 1 ≤ count }
        ensures { OnceHeard now self.old (λ heard. IsAssign placement ttl count cookie heard result self.new) }
    {
        self.hear(now);
        self.give(alloc, placement, ttl, count, cookie)
    }

    /// Gives keys for needles of a volume of a kind.
    fn give(
        &mut self,
        alloc: Global,
        placement: Placement,
        ttl: [u8; 2],
        count: u64,
        cookie: u32,
    ) -> Result<Assigned, MasterFault>
        ensures { IsAssign placement ttl count cookie self.old result self.new }
    {
        let Some(volume) = self.writable_volume(alloc, placement, ttl)? else {
            return Err(MasterFault::NoWritable);
        };
        let Some(next) = self.next.checked_add(count) else {
            return Err(MasterFault::KeysSpent { next: self.next });
        };
        let location = self.first_location(alloc, volume)?;
        let fid = Fid {
            volume,
            key: self.next,
            cookie,
        };
        self.next = next;
        Ok(Assigned {
            fid,
            count,
            location,
        })
    }

    /// A volume of a kind that may be written, if there is one.
    fn writable_volume(
        &self,
        alloc: Global,
        placement: Placement,
        ttl: [u8; 2],
    ) -> Result<Option<u32>, AllocError>
        ensures { IfOk result (λ volume. IsWritableVolume placement ttl self.now volume) }
    {
        self.topology
            .any_writable(alloc, placement, ttl, self.limit)
    }

    /// The first location of a volume that has some.
    fn first_location(&self, alloc: Global, volume: u32) -> Result<Location, AllocError>
        requires { 0 < length (locations_of volume self.now.topology) }
        ensures { IfOk result (λ location. (others : List Location) × (locations_of volume self.now.topology ≡ location ∷ others)) }
    {
        let mut locations = self.topology.locations(alloc, volume)?;
        Ok(locations.swap_remove(0))
    }

    /// Where a volume is reached. `UnknownVolume` comes exactly where no node reports it. In any case each silent node
    /// leaves first.
    pub fn lookup(
        &mut self,
        alloc: Global,
        volume: u32,
        now: u64,
    ) -> Result<Vec<Location>, MasterFault>
        ensures { OnceHeard now self.old (λ heard. IsLookup volume heard result × (self.new ≡ heard)) }
    {
        self.hear(now);
        self.locations(alloc, volume)
    }

    /// Where a volume is reached, of one that a node reports.
    fn locations(&self, alloc: Global, volume: u32) -> Result<Vec<Location>, MasterFault>
        ensures { IsLookup volume self.now result }
    {
        let locations = self.topology.locations(alloc, volume)?;
        if locations.is_empty() {
            return Err(MasterFault::UnknownVolume);
        }
        Ok(locations)
    }

    /// Gives a volume its number, one more than each that was ever told or grown, and nodes that are to make it.
    /// `NoPlace` comes exactly where no nodes meet the placement, and `IdsSpent` where the numbers are at 2^32 - 1. In
    /// any case each silent node leaves first.
    pub fn grow(
        &mut self,
        alloc: Global,
        placement: Placement,
        _ttl: [u8; 2],
        now: u64,
    ) -> Result<Grown, MasterFault>
        ensures { OnceHeard now self.old (λ heard. IsGrow placement heard result self.new) }
    {
        self.hear(now);
        self.enlarge(alloc, placement)
    }

    /// Gives a volume its number and nodes.
    fn enlarge(&mut self, alloc: Global, placement: Placement) -> Result<Grown, MasterFault>
        ensures { IsGrow placement self.old result self.new }
    {
        let nodes = match self.topology.place(alloc, placement) {
            Ok(nodes) => nodes,
            Err(TopologyFault::NoPlace { wanted, free }) => {
                return Err(MasterFault::NoPlace { wanted, free });
            }
            Err(_) => return Err(MasterFault::Memory),
        };
        if self.greatest == u32::MAX {
            return Err(MasterFault::IdsSpent {
                greatest: self.greatest,
            });
        }
        self.greatest += 1;
        Ok(Grown {
            volume: self.greatest,
            nodes: GrownNodes::of(nodes),
        })
    }

    /// A node has made a volume, empty: it reports it besides, where it is there. `Memory` is the only fault.
    pub fn made(
        &mut self,
        node: &Name,
        volume: u32,
        placement: Placement,
        ttl: [u8; 2],
    ) -> Result<(), MasterFault>
        ensures { IsMade node.now (made_report volume placement ttl) self.old result self.new }
    {
        let report = VolumeReport {
            volume,
            placement,
            ttl,
            size: EMPTY,
            read_only: false,
        };
        match self.topology.add(node, report) {
            Ok(()) => {}
            Err(TopologyFault::UnknownNode) => return Ok(()),
            Err(_) => return Err(MasterFault::Memory),
        }
        self.greatest = self.greatest.max(volume);
        Ok(())
    }

    /// One report for each volume that is reported, by rising volume: that of the first node, by id, that reports it.
    /// Each silent node leaves first. `Memory` is the only fault.
    pub fn volumes(&mut self, alloc: Global, now: u64) -> Result<Vec<VolumeReport>, MasterFault>
        ensures { OnceHeard now self.old (λ heard. IsVolumes heard result × (self.new ≡ heard)) }
    {
        self.hear(now);
        self.reports(alloc)
    }

    /// One report for each volume that is reported.
    fn reports(&self, alloc: Global) -> Result<Vec<VolumeReport>, MasterFault>
        ensures { IsVolumes self.now result }
    {
        Ok(self.topology.volumes(alloc)?)
    }
}
