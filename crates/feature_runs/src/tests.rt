ghost use Rattle.std.specs.Prelude.{IfOk};
ghost use Rattle.mvt_codec.specs.Items.{IsItem};

use crate::{ItemKey, RunBuffer, RunItem, SpillErr};
use mvt_codec::TileRow;
use std::alloc::Global;
use std::test::Fail;
use tb_outside::MemSpill;
use tb_types::{Kind, Memory, Place, Seq};

/// The bytes of a point's item.
const POINT_BYTES: u64 = 37;

fn point(alloc: Global, tile: u32) -> Result<RunItem, Memory>
    ensures { IfOk result (λ item. IsItem item) }
{
    let mut ints = Seq::new(alloc);
    ints.push(9)?;
    ints.push(0)?;
    ints.push(0)?;
    let place = Place { block: 2, index: 1 };
    let key = ItemKey {
        tile: u64::from(tile),
        layer: 0,
        order: -1,
        kind: Kind::Way,
        place,
        rule: 0,
    };
    let row = TileRow {
        id: 0,
        form: 1,
        ints,
        attributes: Seq::new(alloc),
    };
    Ok(RunItem { key, row })
}

#[test]
fn runs_have_their_sizes(rt: HostRuntime) -> Result<(), Fail> {
    let alloc = rt.alloc();
    let mut spill = MemSpill::new(alloc, Vec::new(alloc))?;
    let mut buffer = RunBuffer::new(alloc, 3 * POINT_BYTES)?;
    for tile in [5, 3, 9, 1, 2, 7, 0] {
        assert!(rt; buffer.add(&mut spill, point(alloc, tile)?).is_ok());
    }
    assert!(rt; buffer.runs().len() == 2);
    assert!(rt; buffer.flush(&mut spill).is_ok() && buffer.flush(&mut spill).is_ok());
    match buffer.runs() {
        [first, second, third] => {
            assert!(rt; first.len == 111 && second.len == 111 && third.len == 37);
        }
        _ => assert!(rt; false),
    }
    Ok(())
}

#[test]
fn an_item_above_the_limit_is_a_run(rt: HostRuntime) -> Result<(), Fail> {
    let alloc = rt.alloc();
    let mut spill = MemSpill::new(alloc, Vec::new(alloc))?;
    let mut buffer = RunBuffer::new(alloc, 1)?;
    for tile in [2, 1] {
        assert!(rt; buffer.add(&mut spill, point(alloc, tile)?).is_ok());
    }
    assert!(rt; buffer.flush(&mut spill).is_ok());
    match buffer.runs() {
        [first, second] => assert!(rt; first.len == 37 && second.len == 37),
        _ => assert!(rt; false),
    }
    Ok(())
}

#[test]
fn each_call_fails_in_turn(rt: HostRuntime) -> Result<(), Fail> {
    let alloc = rt.alloc();
    for fault in 0..3 {
        let mut spill = MemSpill::new(alloc, Vec::from_slice(alloc, &[fault])?)?;
        let mut buffer = RunBuffer::new(alloc, POINT_BYTES)?;
        assert!(rt; buffer.add(&mut spill, point(alloc, 1)?).is_ok());
        assert!(rt;
            buffer.add(&mut spill, point(alloc, 2)?) == Err(SpillErr::Failed),
            "at call {fault}"
        );
        assert!(rt; buffer.runs().is_empty());
    }
    Ok(())
}
