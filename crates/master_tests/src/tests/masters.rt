use master::{Heartbeat, HeartbeatVolumes, Master, MasterFault};
use needle::Placement;
use std::alloc::{AllocError, Global};
use std::test::Fail;
use topology::{Location, Node, VolumeReport};
use weed_base::Name;

const URL: &[u8] = b"127.0.0.1:8080";

const COOKIE: u32 = 0x6370_37d6;

fn server(alloc: Global) -> Result<Node, AllocError> {
    Ok(Node {
        id: Name::new(alloc, URL)?,
        public: Name::new(alloc, URL)?,
        data_center: Name::new(alloc, b"")?,
        rack: Name::new(alloc, b"")?,
        room: 8,
    })
}

fn single() -> Result<Placement, Fail> {
    Ok(Placement::new(0, 0, 0).ok_or("digits")?)
}

fn report(volume: u32) -> Result<VolumeReport, Fail> {
    Ok(VolumeReport {
        volume,
        placement: single()?,
        ttl: [0, 0],
        size: 8,
        read_only: false,
    })
}

/// The server's beat of volume 3.
fn beat(alloc: Global, greatest: u64) -> Result<Heartbeat, Fail> {
    Ok(Heartbeat {
        node: server(alloc)?,
        volumes: HeartbeatVolumes::of(vec![in alloc; report(3)?]?),
        greatest,
    })
}

/// A master of one server, which has beaten volume 3.
fn one_server(alloc: Global) -> Result<Master, Fail> {
    let mut master = Master::new(alloc, 1000);
    master.beat(alloc, &beat(alloc, 0)?, 0)?;
    Ok(master)
}

fn is_server(location: &Location) -> bool {
    location.url.as_slice() == URL && location.public_url.as_slice() == URL
}

/// Whether so many keys are given from this one on, at the server.
fn gives(master: &mut Master, alloc: Global, count: u64, text: &[u8]) -> Result<bool, Fail> {
    if count == 0 {
        return Ok(false);
    }
    let assigned = master.assign(alloc, single()?, [0, 0], count, COOKIE, 0)?;
    Ok(
        assigned.count == count
            && assigned.fid.write().as_slice() == text
            && is_server(&assigned.location),
    )
}

/// Whether a volume is at the server alone.
fn is_at_server(master: &mut Master, alloc: Global, volume: u32) -> Result<bool, Fail> {
    let locations = master.lookup(alloc, volume, 0)?;
    Ok(locations.len() == 1 && is_server(&locations[0]))
}

#[test]
fn keys_are_given_one_after_another(rt: HostRuntime) -> Result<(), Fail> {
    let mut master = one_server(rt.alloc())?;
    assert!(rt; gives(&mut master, rt.alloc(), 1, b"3,01637037d6")?);
    assert!(rt; gives(&mut master, rt.alloc(), 3, b"3,02637037d6")?);
    assert!(rt; gives(&mut master, rt.alloc(), 1, b"3,05637037d6")?);
    assert!(rt; is_at_server(&mut master, rt.alloc(), 3)?);
    Ok(())
}

#[test]
fn a_second_center_is_wanted(rt: HostRuntime) -> Result<(), Fail> {
    let mut master = one_server(rt.alloc())?;
    let placement = Placement::new(1, 0, 0).ok_or("digits")?;
    let assigned = master
        .assign(rt.alloc(), placement, [0, 0], 1, COOKIE, 0)
        .err();
    assert!(rt; assigned == Some(MasterFault::NoWritable));
    let grown = master.grow(rt.alloc(), placement, [0, 0], 0).err();
    assert!(rt; grown == Some(MasterFault::NoPlace { wanted: 2, free: 1 }));
    Ok(())
}

/// Whether the volumes are 3 and 9.
fn has_3_and_9(master: &mut Master, alloc: Global) -> Result<bool, Fail> {
    let volumes = master.volumes(alloc, 0)?;
    Ok(volumes.len() == 2 && volumes[0] == report(3)? && volumes[1] == report(9)?)
}

#[test]
fn a_made_volume_is_told(rt: HostRuntime) -> Result<(), Fail> {
    let mut master = one_server(rt.alloc())?;
    let unknown = master.lookup(rt.alloc(), 9, 0).err();
    assert!(rt; unknown == Some(MasterFault::UnknownVolume));
    master.made(&Name::new(rt.alloc(), URL)?, 9, single()?, [0, 0])?;
    assert!(rt; is_at_server(&mut master, rt.alloc(), 9)?);
    assert!(rt; has_3_and_9(&mut master, rt.alloc())?);
    Ok(())
}

#[test]
fn the_last_key_is_not_passed(rt: HostRuntime) -> Result<(), Fail> {
    let mut master = one_server(rt.alloc())?;
    let spent = master.beat(rt.alloc(), &beat(rt.alloc(), u64::MAX)?, 0);
    assert!(rt; spent == Err(MasterFault::KeysSpent { next: 1 }));
    Ok(())
}

/// Whether the master's next volume is this one, at the server.
fn grows(master: &mut Master, alloc: Global, volume: u32, now: u64) -> Result<bool, Fail> {
    let grown = master.grow(alloc, single()?, [0, 0], now)?;
    let nodes = grown.nodes.as_slice();
    Ok(grown.volume == volume && nodes.len() == 1 && nodes[0].as_slice() == URL)
}

#[test]
fn a_number_is_not_grown_again_after_its_node_left(rt: HostRuntime) -> Result<(), Fail> {
    let mut master = one_server(rt.alloc())?;
    assert!(rt; grows(&mut master, rt.alloc(), 4, 0)?);
    let late = 26_000_000_000;
    let none = master.grow(rt.alloc(), single()?, [0, 0], late).err();
    assert!(rt; none == Some(MasterFault::NoPlace { wanted: 1, free: 0 }));
    master.beat(rt.alloc(), &beat(rt.alloc(), 0)?, late)?;
    assert!(rt; grows(&mut master, rt.alloc(), 5, late)?);
    Ok(())
}

/// Whether the text is read as the beat whose text it is.
fn is_read_back(alloc: Global, beat: &Heartbeat) -> Result<bool, Fail> {
    let Ok(_id) = str::from_utf8(beat.node.id.as_slice()) else {
        return Ok(false);
    };
    let Ok(_public) = str::from_utf8(beat.node.public.as_slice()) else {
        return Ok(false);
    };
    let Ok(_center) = str::from_utf8(beat.node.data_center.as_slice()) else {
        return Ok(false);
    };
    let Ok(_rack) = str::from_utf8(beat.node.rack.as_slice()) else {
        return Ok(false);
    };
    let text = beat.write(alloc)?;
    let read = Heartbeat::read(alloc, text.as_slice())?;
    Ok(
        read.greatest == beat.greatest
            && read.node.id.as_slice() == beat.node.id.as_slice()
            && read.volumes.as_slice() == beat.volumes.as_slice(),
    )
}

#[test]
fn a_beat_is_read_back(rt: HostRuntime) -> Result<(), Fail> {
    assert!(rt; is_read_back(rt.alloc(), &beat(rt.alloc(), 7)?)?);
    Ok(())
}
