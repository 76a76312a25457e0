use needle::Placement;
use std::alloc::{AllocError, Global};
use std::test::Fail;
use topology::{Node, Topology, TopologyFault, VolumeReport};
use weed_base::Name;

fn node(alloc: Global, id: &[u8], center: &[u8], rack: &[u8]) -> Result<Node, AllocError> {
    Ok(Node {
        id: Name::new(alloc, id)?,
        public: Name::new(alloc, id)?,
        data_center: Name::new(alloc, center)?,
        rack: Name::new(alloc, rack)?,
        room: 8,
    })
}

/// Nodes n1 and n2 in two racks of data center d1, and n3 in d2.
fn three_nodes(alloc: Global) -> Result<Topology, Fail> {
    let mut topology = Topology::new(alloc);
    topology.join(alloc, node(alloc, b"n1", b"d1", b"r1")?, 0)?;
    topology.join(alloc, node(alloc, b"n2", b"d1", b"r2")?, 0)?;
    topology.join(alloc, node(alloc, b"n3", b"d2", b"r1")?, 0)?;
    Ok(topology)
}

/// Whether a volume of this placement goes to two nodes, of which one is `first`, and the other `second` or `third`.
fn goes_to(
    alloc: Global,
    placement: Placement,
    first: &[u8],
    others: &[&[u8]],
) -> Result<bool, Fail> {
    let topology = three_nodes(alloc)?;
    let ids = topology.place(alloc, placement)?;
    let has_first = ids.iter().any(|id| id.as_slice() == first);
    let has_other = ids
        .iter()
        .any(|id| others.iter().any(|other| id.as_slice() == *other));
    Ok(ids.len() == 2 && has_first && has_other)
}

#[test]
fn a_copy_goes_to_another_rack_or_center(rt: HostRuntime) -> Result<(), Fail> {
    let other_rack = Placement::new(0, 1, 0).ok_or("digits")?;
    assert!(rt; goes_to(rt.alloc(), other_rack, b"n1", &[b"n2"])?);
    let other_center = Placement::new(1, 0, 0).ok_or("digits")?;
    assert!(rt; goes_to(rt.alloc(), other_center, b"n3", &[b"n1", b"n2"])?);
    Ok(())
}

#[test]
fn three_servers_of_one_rack_are_not_there(rt: HostRuntime) -> Result<(), Fail> {
    let topology = three_nodes(rt.alloc())?;
    let placement = Placement::new(0, 0, 2).ok_or("digits")?;
    let fault = topology.place(rt.alloc(), placement).err();
    assert!(rt; fault == Some(TopologyFault::NoPlace { wanted: 3, free: 3 }));
    Ok(())
}

fn report(volume: u32) -> Result<VolumeReport, Fail> {
    Ok(VolumeReport {
        volume,
        placement: Placement::new(0, 0, 0).ok_or("digits")?,
        ttl: [0, 0],
        size: 8,
        read_only: false,
    })
}

#[test]
fn an_added_report_is_told(rt: HostRuntime) -> Result<(), Fail> {
    let mut topology = three_nodes(rt.alloc())?;
    let unknown = topology.leave(&Name::new(rt.alloc(), b"n4")?);
    assert!(rt; unknown == Err(TopologyFault::UnknownNode));
    topology.add(&Name::new(rt.alloc(), b"n2")?, report(3)?)?;
    let volumes = topology.volumes(rt.alloc())?;
    assert!(rt; volumes.len() == 1 && volumes[0] == report(3)?);
    Ok(())
}
