use crate::gen_blocks;
use std::alloc::Global;
use std::test::Fail;
use tb_types::Memory;

/// The frames of an extract: how many they are, how many bytes they have, and a checksum of those (FNV-1a, 64 bits).
#[derive(Clone, Copy, Debug, PartialEq, Eq)]
struct Sums {
    frames: u64,
    bytes: u64,
    check: u64,
}

fn told(frames: u64, bytes: u64, check: u64) -> Sums {
    Sums {
        frames,
        bytes,
        check,
    }
}

fn with_bytes(check: u64, bytes: &[u8]) -> u64 {
    let mut check = check;
    for byte in bytes {
        check = (check ^ u64::from(*byte)).wrapping_mul(0x100_0000_01b3);
    }
    check
}

fn sums_of(alloc: Global, seed: u64, count: u64) -> Result<Sums, Memory> {
    if count < 100 || count > 10_000_000 {
        return Err(Memory);
    }
    let mut world = gen_blocks(alloc, seed, count)?;
    let mut sums = Sums {
        frames: 0,
        bytes: 0,
        check: 0xcbf2_9ce4_8422_2325,
    };
    for _ in 0..u64::MAX {
        match world.next_frame()? {
            None => return Ok(sums),
            Some(frame) => {
                sums.frames = sums.frames.saturating_add(1);
                sums.bytes = sums.bytes.saturating_add(frame.len() as u64);
                sums.check = with_bytes(sums.check, &frame);
            }
        }
    }
    Ok(sums)
}

#[test]
fn extracts_are_those_of_the_model(rt: HostRuntime) -> Result<(), Fail> {
    let cases = [
        (7, 20000, told(101, 222980, 0x048d_769b_b216_8ccd)),
        (1, 100000, told(501, 1119371, 0x0388_e22c_e6ed_f78b)),
        (0, 100, told(4, 1295, 0xb08a_7b96_933c_598d)),
        (u64::MAX, 100, told(4, 1304, 0xffcd_8f6e_97f7_986b)),
        (5, 2345, told(15, 25937, 0xe68d_9669_9753_d2d4)),
    ];
    for (seed, count, want) in cases {
        assert!(rt;
            sums_of(rt.alloc(), seed, count) == Ok(want),
            "of {seed} and {count}"
        );
    }
    Ok(())
}
