ghost use Rattle.std.specs.Prelude.{◌≡◌, ◌≤◌, None, IfErr, IfOk, OnOk, OnErr, MatchOption};
ghost use Rattle.std.specs.FinMap.{empty, get, len, remove, values};
ghost use Rattle.topology.specs.Changes.{joined, reported, member_of, beaten, with_report, reports_of, IsJoinFault, NeedsNode, AreHeard};
ghost use Rattle.topology.specs.Told.{locations_of, locations_in, AreFirstReports};
ghost use Rattle.topology.specs.Writable.{AreWritable, IsWritableAt};
ghost use Rattle.topology.specs.Choices.{IsChoice, IsPlaceFault};

use crate::fault::TopologyFault;
use crate::member::{Member, Seat, find_seat};
use crate::node::{Location, Node};
use crate::numbered::Numbered;
use crate::placing::{choose_any, free_members, ids_of};
use crate::report::VolumeReport;
use crate::volumes::first_reports;
use crate::writable::{Kind, writable_volume, writable_volumes};
use needle::Placement;
use std::alloc::{AllocError, Global};
use std::marker::Model;
use weed_base::Name;

/// How many nodes are there at most.
const MOST_NODES: usize = 1024;

/// The nodes of a store by their ids, each with its last moment and its reports.
#[derive(Debug, Drop)]
pub struct Topology {
    members: Vec<Member>,
}

impl Model for Topology {
    ghost use Rattle.std.specs.FinMap.{code};
    ghost use Rattle.std.specs.Coded.{coded_list, coded_ℕ};
    ghost use Rattle.topology.specs.contracts.member.Member as member;
    ghost use Rattle.topology.specs.Nodes.{Nodes, nodes_of, AreKept};

    ghost Value = { Nodes };

    ghost coded = { code (coded_list coded_ℕ) member.the_row.coded };

    ghost view = { λ topology. nodes_of topology.members.items };

    ghost invariant = { λ topology. AreKept topology.members.items };
}

impl Topology {
    /// Of no nodes. Takes no memory.
    pub fn new(alloc: Global) -> Topology
        ensures { result ≡ empty }
    {
        Topology {
            members: Vec::new(alloc),
        }
    }

    /// Takes a node in, in place of one of its id, whose reports it keeps. `TooManyNodes` comes exactly where 1,024
    /// others are there.
    pub fn join(&mut self, alloc: Global, node: Node, now: u64) -> Result<(), TopologyFault>
        ensures ok { OnOk result (self.new ≡ joined node now self.old) }
        ensures err { OnErr result (self.new ≡ self.old) }
        ensures cause { IfErr result (IsJoinFault node self.old) }
        ensures full { get self.old node.id ≡ None → 1024 ≤ len self.old → result ≡ Err TopologyFault.TooManyNodes }
    {
        match find_seat(&self.members, node.id.as_slice()) {
            Seat::Taken(at) => {
                let member = &mut self.members[at];
                member.node = node;
                member.heard = now;
            }
            Seat::Free(at) => {
                if self.members.len() >= MOST_NODES {
                    return Err(TopologyFault::TooManyNodes);
                }
                let member = Member {
                    node,
                    heard: now,
                    reports: Numbered::new(alloc),
                };
                self.members.insert(at, member)?;
            }
        }
        Ok(())
    }

    /// Takes a node out. `UnknownNode` comes exactly where none has the id. Takes no memory.
    pub fn leave(&mut self, id: &Name) -> Result<(), TopologyFault>
        ensures after { self.new ≡ remove self.old id.now }
        ensures answer { MatchOption (get self.old id.now) (result ≡ Err TopologyFault.UnknownNode) (λ _. result ≡ Ok tt) }
    {
        let Seat::Taken(_) = find_seat(&self.members, id.as_slice()) else {
            return Err(TopologyFault::UnknownNode);
        };
        self.members.retain(|member| !member.has_id(id.as_slice()));
        Ok(())
    }

    /// What a node reports from now on. Of two reports of one volume the last counts. `UnknownNode` comes exactly
    /// where none has the id. An `Err` changes nothing.
    pub fn beat(
        &mut self,
        alloc: Global,
        id: &Name,
        volumes: &[VolumeReport],
        now: u64,
    ) -> Result<(), TopologyFault>
        ensures ok { OnOk result (self.new ≡ beaten id.now volumes.now now self.old) }
        ensures err { OnErr result (self.new ≡ self.old) }
        ensures answer { NeedsNode id.now self.old result }
    {
        let Seat::Taken(at) = find_seat(&self.members, id.as_slice()) else {
            return Err(TopologyFault::UnknownNode);
        };
        let reports = reports_of(alloc, volumes)?;
        let member = &mut self.members[at];
        member.reports = reports;
        member.heard = now;
        Ok(())
    }

    /// Takes a node in, in place of one of its id, with what it reports from now on. `TooManyNodes` comes exactly where
    /// 1,024 others are there, and an `Err` changes nothing.
    pub fn report(
        &mut self,
        alloc: Global,
        node: &Node,
        volumes: &[VolumeReport],
        now: u64,
    ) -> Result<(), TopologyFault>
        ensures ok { OnOk result (self.new ≡ reported node.now volumes.now now self.old) }
        ensures err { OnErr result (self.new ≡ self.old) }
        ensures cause { IfErr result (IsJoinFault node.now self.old) }
        ensures full { get self.old node.now.id ≡ None → 1024 ≤ len self.old → result ≡ Err TopologyFault.TooManyNodes }
    {
        match find_seat(&self.members, node.id.as_slice()) {
            Seat::Taken(at) => {
                let member = told_member(alloc, node, volumes, now)?;
                self.members[at] = member;
            }
            Seat::Free(at) => {
                if self.members.len() >= MOST_NODES {
                    return Err(TopologyFault::TooManyNodes);
                }
                let member = told_member(alloc, node, volumes, now)?;
                self.members.insert(at, member)?;
            }
        }
        Ok(())
    }

    /// Takes out each node whose last join or beat lies more than 25 seconds before now. Takes no memory.
    pub fn expire(&mut self, now: u64)
        ensures { AreHeard now self.old self.new }
    {
        self.members.retain(|member| member.is_heard(now));
    }

    /// Gives a node one more report, in place of one of the same volume. `UnknownNode` comes exactly where none has
    /// the id. An `Err` changes nothing.
    pub fn add(&mut self, id: &Name, report: VolumeReport) -> Result<(), TopologyFault>
        ensures ok { OnOk result (self.new ≡ with_report id.now report self.old) }
        ensures err { OnErr result (self.new ≡ self.old) }
        ensures answer { NeedsNode id.now self.old result }
    {
        let Seat::Taken(at) = find_seat(&self.members, id.as_slice()) else {
            return Err(TopologyFault::UnknownNode);
        };
        let member = &mut self.members[at];
        member.reports.insert(report.volume, report)?;
        Ok(())
    }

    /// One report for each volume that is reported, by rising volume: that of the first node, by id, that reports it.
    pub fn volumes(&self, alloc: Global) -> Result<Vec<VolumeReport>, AllocError>
        ensures { IfOk result (λ volumes. AreFirstReports self.now volumes.items) }
    {
        let reports = first_reports(alloc, &self.members)?;
        reports.values().copied().collect(alloc)
    }

    /// The volumes of this placement and time to live that may be written, rising: as many nodes report each as its
    /// placement wants, none as read-only, and each with a size below the limit, in bytes.
    pub fn writable(
        &self,
        alloc: Global,
        placement: Placement,
        ttl: [u8; 2],
        limit: u64,
    ) -> Result<Vec<u32>, AllocError>
        ensures { IfOk result (λ volumes. AreWritable placement ttl limit self.now volumes.items) }
    {
        let kind = Kind {
            placement,
            ttl,
            limit,
        };
        writable_volumes(alloc, &self.members, &kind)
    }

    /// A volume of this placement and time to live that may be written, if there is one.
    pub fn any_writable(
        &self,
        alloc: Global,
        placement: Placement,
        ttl: [u8; 2],
        limit: u64,
    ) -> Result<Option<u32>, AllocError>
        ensures { IfOk result (λ found. IsWritableAt placement ttl limit (values self.now) found) }
    {
        let kind = Kind {
            placement,
            ttl,
            limit,
        };
        writable_volume(alloc, &self.members, &kind)
    }

    /// Distinct nodes with fewer volumes than room that meet a placement. `NoPlace` comes exactly where none do; it
    /// tells how many are wanted, and how many nodes have room.
    pub fn place(&self, alloc: Global, placement: Placement) -> Result<Vec<Name>, TopologyFault>
        ensures ok { IfOk result (λ ids. IsChoice placement self.now ids.items) }
        ensures cause { IfErr result (IsPlaceFault placement self.now) }
    {
        let free = free_members(alloc, &self.members)?;
        match choose_any(alloc, &free, placement)? {
            Some(chosen) => Ok(ids_of(alloc, &chosen)?),
            None => Err(TopologyFault::NoPlace {
                wanted: u32::from(placement.x + placement.y + placement.z + 1),
                free: free.len() as u32,
            }),
        }
    }

    /// Where a volume is reached, in the order of node ids.
    pub fn locations(&self, alloc: Global, volume: u32) -> Result<Vec<Location>, AllocError>
        ensures { IfOk result (λ locations. locations.items ≡ locations_of volume self.now) }
    {
        locations_in(alloc, &self.members, volume)
    }
}

/// The map of a list of reports.
fn reports_of(alloc: Global, volumes: &[VolumeReport]) -> Result<Numbered<VolumeReport>, AllocError>
    ensures { IfOk result (λ made. made ≡ reports_of volumes.now) }
{
    let mut reports = Numbered::new(alloc);
    for report in volumes {
        reports.insert(report.volume, *report)?;
    }
    Ok(reports)
}

/// A node that was heard at a moment, with what it reports.
fn told_member(
    alloc: Global,
    node: &Node,
    volumes: &[VolumeReport],
    now: u64,
) -> Result<Member, AllocError>
    ensures { IfOk result (λ member. member ≡ member_of node.now volumes.now now) }
{
    Ok(Member {
        node: node.copy(alloc)?,
        heard: now,
        reports: reports_of(alloc, volumes)?,
    })
}

/// Where a volume is reached at these nodes.
fn locations_in(alloc: Global, members: &[Member], volume: u32) -> Result<Vec<Location>, AllocError>
    ensures { IfOk result (λ locations. locations.items ≡ locations_in volume members.now) }
{
    let mut locations = Vec::new(alloc);
    for member in members {
        if member.reports.get(volume).is_some() {
            locations.push(member.node.location(alloc)?)?;
        }
    }
    Ok(locations)
}
