use super::*;
use needle::Placement;
use std::alloc::{AllocError, Global};
use std::test::Fail;
use weed_base::Name;

fn node(alloc: Global, id: &[u8]) -> Result<Node, AllocError> {
    Ok(Node {
        id: Name::new(alloc, id)?,
        public: Name::new(alloc, b"public")?,
        data_center: Name::new(alloc, b"d1")?,
        rack: Name::new(alloc, b"r1")?,
        room: 8,
    })
}

fn report(volume: u32) -> Result<VolumeReport, Fail> {
    Ok(VolumeReport {
        volume,
        placement: Placement::new(0, 0, 0).ok_or("digits")?,
        ttl: [0, 0],
        size: 8,
        read_only: false,
    })
}

/// Nodes n2 and n1, of which n2 reports volume 3, and both were heard at moment 5.
fn two_nodes(alloc: Global) -> Result<Topology, Fail> {
    let mut topology = Topology::new(alloc);
    topology.join(alloc, node(alloc, b"n2")?, 0)?;
    topology.join(alloc, node(alloc, b"n1")?, 5)?;
    topology.beat(alloc, &Name::new(alloc, b"n2")?, &[report(3)?], 5)?;
    Ok(topology)
}

/// Whether the volume is reached at just these addresses.
fn is_at(topology: &Topology, alloc: Global, volume: u32, urls: &[&[u8]]) -> Result<bool, Fail> {
    let locations = topology.locations(alloc, volume)?;
    if locations.len() != urls.len() {
        return Ok(false);
    }
    for (location, url) in locations.iter().zip(urls) {
        if location.url.as_slice() != *url {
            return Ok(false);
        }
    }
    Ok(true)
}

#[test]
fn a_volume_is_reached_in_the_order_of_ids(rt: HostRuntime) -> Result<(), Fail> {
    let mut topology = two_nodes(rt.alloc())?;
    assert!(rt; is_at(&topology, rt.alloc(), 3, &[b"n2"])?);
    topology.add(&Name::new(rt.alloc(), b"n1")?, report(3)?)?;
    assert!(rt; is_at(&topology, rt.alloc(), 3, &[b"n1", b"n2"])?);
    Ok(())
}

#[test]
fn a_node_that_joins_again_keeps_its_reports(rt: HostRuntime) -> Result<(), Fail> {
    let mut topology = two_nodes(rt.alloc())?;
    topology.join(rt.alloc(), node(rt.alloc(), b"n2")?, 9)?;
    assert!(rt; is_at(&topology, rt.alloc(), 3, &[b"n2"])?);
    Ok(())
}

#[test]
fn a_silent_node_leaves_after_25_seconds(rt: HostRuntime) -> Result<(), Fail> {
    let mut topology = two_nodes(rt.alloc())?;
    topology.expire(25_000_000_005);
    assert!(rt; is_at(&topology, rt.alloc(), 3, &[b"n2"])?);
    topology.expire(25_000_000_006);
    assert!(rt; is_at(&topology, rt.alloc(), 3, &[])?);
    Ok(())
}

#[test]
fn a_node_that_is_not_there_cannot_leave(rt: HostRuntime) -> Result<(), Fail> {
    let mut topology = two_nodes(rt.alloc())?;
    let unknown = topology.leave(&Name::new(rt.alloc(), b"n4")?);
    assert!(rt; unknown == Err(TopologyFault::UnknownNode));
    topology.leave(&Name::new(rt.alloc(), b"n2")?)?;
    assert!(rt; is_at(&topology, rt.alloc(), 3, &[])?);
    Ok(())
}

#[test]
fn a_volume_is_told_once(rt: HostRuntime) -> Result<(), Fail> {
    let mut topology = two_nodes(rt.alloc())?;
    topology.add(&Name::new(rt.alloc(), b"n1")?, report(3)?)?;
    let volumes = topology.volumes(rt.alloc())?;
    assert!(rt; volumes.len() == 1 && volumes[0] == report(3)?);
    Ok(())
}

/// Whether volume 3 alone may be written, or none.
fn writes_to_3(topology: &Topology, alloc: Global, limit: u64) -> Result<bool, Fail> {
    let placement = Placement::new(0, 1, 0).ok_or("digits")?;
    let volumes = topology.writable(alloc, placement, [0, 0], limit)?;
    Ok(volumes.len() == 1 && volumes[0] == 3)
}

/// What a node tells of volume 3, of which a copy is kept in another rack.
fn copied(size: u64, read_only: bool) -> Result<VolumeReport, Fail> {
    Ok(VolumeReport {
        volume: 3,
        placement: Placement::new(0, 1, 0).ok_or("digits")?,
        ttl: [0, 0],
        size,
        read_only,
    })
}

#[test]
fn a_volume_with_each_of_its_copies_is_writable(rt: HostRuntime) -> Result<(), Fail> {
    let mut topology = two_nodes(rt.alloc())?;
    let (n1, n2) = (Name::new(rt.alloc(), b"n1")?, Name::new(rt.alloc(), b"n2")?);
    topology.add(&n2, copied(8, false)?)?;
    assert!(rt; !writes_to_3(&topology, rt.alloc(), 10)?);
    topology.add(&n1, copied(9, false)?)?;
    assert!(rt; writes_to_3(&topology, rt.alloc(), 10)?);
    assert!(rt; !writes_to_3(&topology, rt.alloc(), 9)?);
    topology.add(&n1, copied(9, true)?)?;
    assert!(rt; !writes_to_3(&topology, rt.alloc(), 10)?);
    Ok(())
}

/// A node of room in a rack of data center d1.
fn racked(alloc: Global, id: &[u8], rack: &[u8], room: u32) -> Result<Node, AllocError> {
    Ok(Node {
        id: Name::new(alloc, id)?,
        public: Name::new(alloc, b"public")?,
        data_center: Name::new(alloc, b"d1")?,
        rack: Name::new(alloc, rack)?,
        room,
    })
}

/// Nodes n1 to n4, of which n3 and n4 have the most room, n1 stands in rack r2 and the others in rack r1.
fn four_nodes(alloc: Global) -> Result<Topology, Fail> {
    let mut topology = Topology::new(alloc);
    topology.join(alloc, racked(alloc, b"n1", b"r2", 1)?, 0)?;
    topology.join(alloc, racked(alloc, b"n2", b"r1", 2)?, 0)?;
    topology.join(alloc, racked(alloc, b"n3", b"r1", 3)?, 0)?;
    topology.join(alloc, racked(alloc, b"n4", b"r1", 3)?, 0)?;
    Ok(topology)
}

/// Whether a volume of copies in `y` other racks and on `z` other servers is placed at just these nodes.
fn is_placed(
    topology: &Topology,
    alloc: Global,
    y: u8,
    z: u8,
    ids: &[&[u8]],
) -> Result<bool, Fail> {
    let placement = Placement::new(0, y, z).ok_or("digits")?;
    let placed = topology.place(alloc, placement)?;
    Ok(
        placed.len() == ids.len()
            && placed
                .iter()
                .zip(ids)
                .all(|(id, wanted)| id.as_slice() == *wanted),
    )
}

#[test]
fn the_nodes_with_the_most_room_are_taken(rt: HostRuntime) -> Result<(), Fail> {
    let topology = four_nodes(rt.alloc())?;
    assert!(rt; is_placed(&topology, rt.alloc(), 0, 0, &[b"n3"])?);
    assert!(rt; is_placed(&topology, rt.alloc(), 1, 0, &[b"n3", b"n1"])?);
    assert!(rt; is_placed(&topology, rt.alloc(), 1, 1, &[b"n3", b"n4", b"n1"])?);
    Ok(())
}

#[test]
fn no_place_tells_how_many_have_room(rt: HostRuntime) -> Result<(), Fail> {
    let topology = four_nodes(rt.alloc())?;
    let placement = Placement::new(0, 2, 0).ok_or("digits")?;
    let wanted = topology.place(rt.alloc(), placement).err();
    assert!(rt; wanted == Some(TopologyFault::NoPlace { wanted: 3, free: 4 }));
    Ok(())
}
