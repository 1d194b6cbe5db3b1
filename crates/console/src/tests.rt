use crate::list_sheet;
use std::alloc::Global;
use std::process::Abort;
use std::test::Fail;

// Six places modulo 7, k = 2, τ = 3, s = 2, ℓ = 4.
const SHEET: &[u8; 45] =
    b"\x01\x00\x2A\x01\x06\x02\x03\x02\x04\x00\x01\x00\x01\x00\x00\x00\x02\x00\x01\x00\x00\x00\x03\x00\x01\x00\x00\x00\x04\x00\x01\x00\x05\x00\x05\x00\x01\x00\x06\x00\x06\x00\x01\x00\x00";

// The sheet is printed so.
fn prints(rt: &impl Abort, heap: Global, sheet: &[u8], text: &str) -> Result<(), Fail> {
    assert_eq!(rt; list_sheet(heap, sheet)?.to_string(heap)?.as_str(), text);
    Ok(())
}

// The same with some bytes changed.
fn damaged(rt: &impl Abort, heap: Global, others: &[(usize, u8)], text: &str) -> Result<(), Fail> {
    let mut sheet = *SHEET;
    for (at, byte) in others {
        if *at < 45 {
            sheet[*at] = *byte;
        }
    }
    prints(rt, heap, &sheet, text)
}

// Seventeen places over GF(256), k = 2, τ = 7, s = 1, ℓ = 1: no small setting.
fn large() -> [u8; 111] {
    let mut sheet = [0; 111];
    sheet[..9].copy_from_slice(&[1, 0, 108, 3, 17, 2, 7, 1, 1]);
    for (point, entry) in (1..=17).zip(sheet[9..].chunks_exact_mut(6)) {
        entry.copy_from_slice(&[0, point, 0, 1, 0, 0]);
    }
    sheet
}

#[test]
fn sheets_are_listed(rt: HostRuntime) -> Result<(), Fail> {
    let heap = rt.alloc();
    prints(
        &rt,
        heap,
        SHEET,
        "candidates 2\ndistance 2 message 0 0 word 0 0 0 0 0 0\ndistance 3 message 1 1 word 2 3 4 5 6 0\n",
    )?;
    damaged(
        &rt,
        heap,
        &[(31, 255), (32, 255)],
        "refused 24 place 3 layer listing\n",
    )?;
    damaged(
        &rt,
        heap,
        &[(32, 7), (44, 7)],
        "refused 8 place 3 layer collection byte 31\n",
    )?;
    damaged(
        &rt,
        heap,
        &[(3, 9), (5, 0)],
        "refused 15 place 3 layer sheet byte 3\n",
    )?;
    damaged(
        &rt,
        heap,
        &[(2, 44), (3, 9)],
        "refused 14 place 1 layer sheet byte 1\n",
    )?;
    prints(&rt, heap, &large(), "refused 11 place 0 layer listing\n")
}

#[test]
fn long_inputs_are_refused(rt: HostRuntime) -> Result<(), Fail> {
    let mut long = [0; 2049];
    prints(
        &rt,
        rt.alloc(),
        &long,
        "refused 13 place 0 layer sheet byte 0\n",
    )?;
    long[0] = 1;
    long[3] = 9;
    prints(
        &rt,
        rt.alloc(),
        &long,
        "refused 14 place 1 layer sheet byte 1\n",
    )
}
