use card::making::create;
use card::reading::read_card;
use device::Device;
use device::flat::Flat;
use refusal::Refusal;
use std::alloc::Global;
use std::process::Abort;
use std::test::Fail;

// A count of device blocks, a slot count as create takes it, and the slots of the card that is made.
const CARDS: [(usize, usize, Result<u32, Refusal>); 10] = [
    (8, 3, Err(Refusal::Measure)),
    (8, 4, Ok(4)),
    (8, 16, Ok(16)),
    (8, 17, Err(Refusal::Measure)),
    (8, 0, Ok(7)),
    (8, 1, Err(Refusal::Measure)),
    (3, 0, Err(Refusal::Measure)),
    (4, 0, Ok(7)),
    (4099, 0, Ok(7)),
    (4100, 0, Err(Refusal::Measure)),
];

// The slots of the card that is made of a device of so many blocks, or its refusal; the outer failure is the test's own.
fn made(heap: Global, blocks: usize, slots: usize) -> Result<Result<u32, Refusal>, Fail> {
    let mut area = vec![in heap; 0u8; blocks.min(4100) * 512]?;
    let Ok(mut device) = Flat::new(area.as_mut_slice()) else {
        return Err(Fail::new("no device"));
    };
    let read = create(&mut device, slots).and_then(|()| read_card(&device, 1));
    Ok(read.map(|card| card.generation.slots))
}

#[test]
fn which_cards_are_made(rt: HostRuntime) -> Result<(), Fail> {
    for (blocks, slots, answer) in CARDS {
        assert_eq!(rt; made(rt.alloc(), blocks, slots)?, answer);
    }
    Ok(())
}

fn first_byte<D: Device>(device: &D, block: usize) -> u8 {
    let mut buffer = [0u8; 512];
    device.read(block, &mut buffer).map_or(0, |()| buffer[0])
}

// Create with so many block writes left, over blocks full of 9: the answer, and the first byte of each metadata block.
fn created_on(rt: &impl Abort, supply: u32) -> Result<(Result<(), Refusal>, [u8; 4]), Fail> {
    let mut area = [9u8; 2048];
    let Ok(mut device) = Flat::new(&mut area) else {
        return Err(Fail::new("no device"));
    };
    assert!(rt; device.set_supply(supply).is_ok());
    let answer = create(&mut device, 0);
    let front = [0, 1, 2, 3].map(|block| first_byte(&device, block));
    Ok((answer, front))
}

#[test]
fn power_fails_at_each_write_of_create(rt: HostRuntime) -> Result<(), Fail> {
    assert_eq!(rt; created_on(&rt, 0)?, (Err(Refusal::Died), [9, 9, 9, 9]));
    assert_eq!(rt; created_on(&rt, 1)?, (Err(Refusal::Died), [b' ', 9, 9, 9]));
    assert_eq!(rt;
        created_on(&rt, 2)?,
        (Err(Refusal::Died), [b' ', b' ', 9, 9])
    );
    assert_eq!(rt; created_on(&rt, 3)?, (Ok(()), [b' ', b' ', 0, 9]));
    Ok(())
}
