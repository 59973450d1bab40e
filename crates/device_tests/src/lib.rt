#![tactic(auto)]

// Tests of the makes of device, over one table of cases.
#[cfg(test)]
mod tests {
    use device::flat::Flat;
    use device::image::Image;
    use device::{Device, DeviceFault};
    use refusal::Refusal;
    use std::test::Fail;

    // What is asked of a device: a block and a buffer's length, for a write also the byte that fills it, or a supply.
    #[derive(Clone, Copy)]
    enum Ask {
        Read(usize, usize),
        Write(usize, usize, u8),
        Supply(u32),
    }

    // What is asked, what is answered, and the byte that a read then has at the front of its buffer, which held 0xEE.
    const CASES: [(Ask, Result<(), DeviceFault>, u8); 22] = [
        (Ask::Read(0, 512), Ok(()), 7),
        (Ask::Read(3, 512), Ok(()), 7),
        (Ask::Read(4, 512), Err(DeviceFault::Range), 0xEE),
        (Ask::Read(4, 511), Err(DeviceFault::Range), 0xEE),
        (Ask::Read(3, 511), Err(DeviceFault::Measure), 0xEE),
        (Ask::Write(3, 512, 1), Ok(()), 0xEE),
        (Ask::Read(3, 512), Ok(()), 1),
        (Ask::Read(2, 512), Ok(()), 7),
        (Ask::Write(4, 512, 2), Err(DeviceFault::Range), 0xEE),
        (Ask::Write(2, 513, 2), Err(DeviceFault::Measure), 0xEE),
        (Ask::Read(2, 512), Ok(()), 7),
        (Ask::Supply(1_000_002), Err(DeviceFault::Measure), 0xEE),
        (Ask::Supply(2), Ok(()), 0xEE),
        (Ask::Write(0, 512, 3), Ok(()), 0xEE),
        (Ask::Write(1, 100, 4), Err(DeviceFault::Measure), 0xEE),
        (Ask::Write(3, 512, 0), Ok(()), 0xEE),
        (Ask::Write(1, 100, 4), Err(DeviceFault::Died), 0xEE),
        (Ask::Write(9, 512, 4), Err(DeviceFault::Range), 0xEE),
        (Ask::Read(1, 512), Ok(()), 7),
        (Ask::Read(3, 512), Ok(()), 0),
        (Ask::Supply(1_000_001), Ok(()), 0xEE),
        (Ask::Write(1, 512, 5), Ok(()), 0xEE),
    ];

    // What a read into so many bytes of a buffer answers, and the byte that is then at its front.
    fn read<D: Device>(device: &D, block: usize, length: usize) -> (Result<(), DeviceFault>, u8) {
        let mut buffer = [0xEEu8; 513];
        let n = length.min(513);
        let answer = device.read(block, &mut buffer[..n]);
        (answer, buffer[0])
    }

    fn answer_of<D: Device>(device: &mut D, what: Ask) -> (Result<(), DeviceFault>, u8) {
        match what {
            Ask::Read(block, length) => read(device, block, length),
            Ask::Write(block, length, fill) => {
                let buffer = [fill; 513];
                (device.write(block, &buffer[..length.min(513)]), 0xEE)
            }
            Ask::Supply(supply) => (device.set_supply(supply), 0xEE),
        }
    }

    #[test]
    fn flat_and_image_answer_alike(rt: HostRuntime) -> Result<(), Fail> {
        let mut area = [7u8; 2048];
        let factory = [7u8; 2048];
        let mut changed = [0u8; 2052];
        let Ok(mut flat) = Flat::new(&mut area) else {
            return Err(Fail::new("no flat device"));
        };
        let Ok(mut image) = Image::new(&factory, &mut changed) else {
            return Err(Fail::new("no image device"));
        };
        assert_eq!(rt; flat.count(), 4);
        assert_eq!(rt; image.count(), 4);
        for (what, answer, front) in CASES {
            assert_eq!(rt; answer_of(&mut flat, what), (answer, front));
            assert_eq!(rt; answer_of(&mut image, what), (answer, front));
        }
        Ok(())
    }

    #[test]
    fn areas_that_do_not_fit(rt: HostRuntime) {
        let mut area = [0u8; 513];
        assert!(rt; Flat::new(&mut area).is_err());
        let mut records = [0u8; 1025];
        assert!(rt; Image::new(&[0u8; 1024], &mut records).is_err());
        assert!(rt; Image::new(&[0u8; 1000], &mut records).is_err());
    }

    #[test]
    fn an_area_comes_back_as_it_was_written(rt: HostRuntime) -> Result<(), Fail> {
        let mut area = [0u8; 1024];
        let Ok(mut flat) = Flat::new(&mut area) else {
            return Err(Fail::new("no flat device"));
        };
        assert_eq!(rt; flat.write(1, &[9u8; 512]), Ok(()));
        let back = flat.into_area();
        assert!(rt; back.len() == 1024);
        assert_eq!(rt; (back[511], back[512], back[1023]), (0, 9, 9));
        Ok(())
    }

    const TOLD: [(DeviceFault, Refusal, u8); 3] = [
        (DeviceFault::Range, Refusal::Block, 3),
        (DeviceFault::Died, Refusal::Died, 23),
        (DeviceFault::Measure, Refusal::Measure, 2),
    ];

    #[test]
    fn faults_are_told_as_refusals(rt: HostRuntime) {
        for (fault, refusal, number) in TOLD {
            let told: Refusal = fault.into();
            assert_eq!(rt; (told, told.number()), (refusal, number));
        }
    }
}
