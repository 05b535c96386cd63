// Plans that are read, and plans that are refused: each number, and pairs of faults where the order decides.
use kinds::map::Map;
use kinds::refusal::Refusal;
use plans::grid::GridMap;
use plans::plan::Plan;
use plans::reading::read;
use plans::road::RoadMap;
use std::alloc::Global;
use std::process::Abort;
use std::test::Fail;

const EAST: &[u8] = b"G\x03\x03\x00\x64R\x01\x01B\x01\x01E";

// The number and the offset with which bytes are refused; the memory is zero then.
fn refused(bytes: &[u8]) -> Option<(u8, Option<u16>)> {
    let mut memory = [7u8; 10240];
    let mut slots = [7u16; 1024];
    read(bytes, &mut memory, &mut slots)
        .err()
        .map(|refusal| (refusal.number(), refusal.offset()))
}

// Checks that bytes are refused with this number at this offset.
fn refuses(rt: &impl Abort, bytes: &[u8], number: u8, offset: u16) {
    assert!(rt; refused(bytes) == Some((number, Some(offset))));
}

#[test]
fn refuses_grids(rt: HostRuntime) {
    refuses(&rt, b"", 3, 0);
    refuses(&rt, b"E", 3, 0);
    refuses(&rt, b"G\x03\x03", 5, 0);
    refuses(&rt, b"G\x01\x03\x00\x64E", 6, 0);
    refuses(&rt, b"G\x03\x41\x00\x64E", 6, 0);
    refuses(&rt, b"G\x03\x03\x03\xe9E", 6, 0);
    refuses(&rt, b"G\x03\x03\x00\x64", 5, 5);
    refuses(&rt, b"G\x03\x03\x00\x64G", 4, 5);
    refuses(&rt, b"G\x03\x03\x00\x64P", 4, 5);
    refuses(&rt, b"G\x03\x03\x00\x64R\x02\x01B\x01\x01E", 6, 5);
    refuses(&rt, b"G\x03\x03\x00\x64R\x01\x01R\x01\x00E", 7, 8);
    refuses(&rt, b"G\x03\x03\x00\x64R\x01\x01R\x01\x02E", 6, 8);
    refuses(&rt, b"G\x03\x03\x00\x64W\x00\x00", 5, 5);
    refuses(&rt, b"G\x03\x03\x00\x64R\x01\x01B\x01\x01EE", 10, 12);
}

#[test]
fn refuses_posts(rt: HostRuntime) {
    refuses(
        &rt,
        b"G\x0a\x03\x00\x64R\x00\x00R\x01\x00R\x02\x00R\x03\x00R\x04\x00R\x05\x00R\x06\x00R\x07\x00E",
        9,
        26,
    );
    refuses(
        &rt,
        b"G\x0a\x03\x00\x64R\x00\x00R\x01\x00R\x02\x00R\x03\x00R\x04\x00R\x05\x00R\x06\x00R\x06\x00E",
        7,
        26,
    );
}

#[test]
fn refuses_roads(rt: HostRuntime) {
    refuses(&rt, b"M", 5, 1);
    refuses(&rt, b"MR", 4, 1);
    refuses(&rt, b"MP\x00\x00\x00", 5, 1);
    refuses(&rt, b"MP\x00\x00\x00\x00P\x00\x00\x00\x00E", 7, 6);
    refuses(
        &rt,
        b"MA\x00\x00\x00\x00\x00\x00\x00\x01\x00\x01\x00\x00E",
        8,
        1,
    );
    refuses(
        &rt,
        b"MP\x00\x00\x00\x05A\x00\x00\x00\x05\x00\x00\x00\x05\x00\x01\x00\x00E",
        8,
        6,
    );
    refuses(
        &rt,
        b"MA\x00\x00\x00\x00\x00\x00\x00\x01\x00\x00\x00\x00E",
        6,
        1,
    );
    refuses(
        &rt,
        b"MA\x00\x00\x00\x00\x00\x00\x00\x01\x00\x01\x00\x08E",
        6,
        1,
    );
    refuses(
        &rt,
        b"MA\x00\x00\x00\x00\x00\x00\x00\x01\x00\x01\x00\x80E",
        6,
        1,
    );
    refuses(&rt, b"ME-", 10, 2);
}

// A roadmap's points, numbered from 0 up.
fn points(heap: Global, count: u16) -> Result<Vec<u8>, Fail> {
    let mut bytes = Vec::new(heap);
    bytes.push(b'M')?;
    for number in 0..count {
        let [high, low] = number.to_be_bytes();
        bytes.extend_from_slice(&[b'P', 0, 0, high, low])?;
    }
    Ok(bytes)
}

#[test]
fn refuses_one_too_many(rt: HostRuntime) -> Result<(), Fail> {
    let heap = rt.alloc();
    let mut full = points(heap, 512)?;
    for _ in 0..1024u16 {
        full.extend_from_slice(b"A\x00\x00\x00\x00\x00\x00\x00\x01\x00\x01\x00\x00")?;
    }
    let mut accepted = full.clone()?;
    accepted.push(b'E')?;
    assert!(rt; refused(&accepted).is_none());
    full.extend_from_slice(b"A\x00\x00\x00\x00\x00\x00\x00\x01\x00\x01\x00\x00E")?;
    refuses(&rt, &full, 9, 15873);
    let mut crowded = points(heap, 513)?;
    crowded.push(b'E')?;
    refuses(&rt, &crowded, 9, 2561);
    Ok(())
}

#[test]
fn refuses_sizes(rt: HostRuntime) -> Result<(), Fail> {
    let long = vec![in rt.alloc(); 0u8; 65536]?;
    let mut memory = [7u8; 10239];
    let mut slots = [7u16; 1024];
    assert!(rt;
        matches!(
            read(&long, &mut memory, &mut slots),
            Err(Refusal::PlanTooLong)
        )
    );
    assert!(rt;
        matches!(
            read(EAST, &mut memory, &mut slots),
            Err(Refusal::MemorySize)
        )
    );
    assert!(rt; memory[0] == 7 && slots[0] == 7);
    Ok(())
}

#[test]
fn reads_the_east_plot(rt: HostRuntime) -> Result<(), Fail> {
    let mut memory = [7u8; 10240];
    let mut slots = [7u16; 1024];
    let Ok(Plan::Grid(grid)) = read(EAST, &mut memory, &mut slots) else {
        return Err(Fail::new("a grid"));
    };
    let map = GridMap {
        grid,
        memory: &memory[..],
    };
    assert!(rt; map.points() == 9);
    assert!(rt; map.lane(3, 0).is_none());
    assert!(rt; map.lane(7, 0).is_some());
    assert!(rt; map.estimate(0, 8) == 400);
    assert!(rt; slots[1023] == 0);
    Ok(())
}

#[test]
fn reads_a_road(rt: HostRuntime) -> Result<(), Fail> {
    let bytes =
        b"MP\x00\x00\x00\x00P\xff\xff\xff\xffA\xff\xff\xff\xff\x00\x00\x00\x00\xff\xff\x09\x87E";
    let mut memory = [7u8; 10240];
    let mut slots = [7u16; 1024];
    let Ok(Plan::Road(road)) = read(bytes, &mut memory, &mut slots) else {
        return Err(Fail::new("a roadmap"));
    };
    let map = RoadMap {
        road,
        memory: &memory[..],
    };
    assert!(rt; map.points() == 2);
    let lane = map.lane(1, 0).ok_or_else(|| Fail::new("a lane"))?;
    assert!(rt; lane.to == 0 && lane.length == 65535 && lane.risk == 9);
    assert!(rt; map.lane(0, 1).is_some() && map.lane(0, 0).is_none());
    Ok(())
}
