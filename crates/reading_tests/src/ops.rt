//! What no clause says: that each operation is read from the written form, and that shapes come before limits. The
//! values are worked by hand; the two limits of each argument stand in nc_scen's table.

use nc_ops::{Counts, read_op};
use nc_values::value_of;
use std::alloc::Global;
use std::process::Abort;
use std::test::Fail;

/// Two harts, three buffers.
const COUNTS: Counts = Counts {
    harts: 2,
    buffers: 3,
};

/// Returns the operation that a text is, or what is wrong with it, in the form of `Debug`.
fn answer(alloc: Global, text: &str) -> Result<String, Fail> {
    let Ok(value) = value_of(alloc, text.as_bytes()) else {
        return Ok(String::from_str(alloc, "no JSON")?);
    };
    let text = match read_op(alloc, COUNTS, &value) {
        Ok(op) => format!(in alloc; "{op:?}")?,
        Err(fault) => format!(in alloc; "{fault:?}")?,
    };
    Ok(text)
}

fn compare(rt: &impl Abort, alloc: Global, table: &[(&str, &str)]) -> Result<(), Fail> {
    for (text, want) in table {
        assert_eq!(rt; answer(alloc, text)?.as_str(), *want, "{text}");
    }
    Ok(())
}

#[test]
fn accesses_fences_and_cache_operations(rt: HostRuntime) -> Result<(), Fail> {
    let table = [
        (
            r#"["ld","b2",3,4]"#,
            "Ld { spot: Buffer(2), off: 3, len: 4 }",
        ),
        (
            r#"["ld","c999",0,0]"#,
            "Ld { spot: Area(Label(999)), off: 0, len: 0 }",
        ),
        (
            r#"["ld","v",4294967295,4096]"#,
            "Ld { spot: Virtual, off: 4294967295, len: 4096 }",
        ),
        (
            r#"["st","b0",1,"fF0a"]"#,
            "St { spot: Buffer(0), off: 1, bytes: HexBytes { items: [255, 10] } }",
        ),
        (
            r#"["cbo","inval",1,64]"#,
            "Cbo { op: Inval, buf: 1, off: 64 }",
        ),
        (r#"["fence",15,1]"#, "Fence { pred: 15, succ: 1 }"),
        (r#"["hand",0,1]"#, "Hand { buf: 0, to: HartNo(1) }"),
        (r#"["take",2]"#, "Take(2)"),
    ];
    compare(&rt, rt.alloc(), &table)
}

#[test]
fn mappings_lists_areas_and_copies(rt: HostRuntime) -> Result<(), Fail> {
    let table = [
        (
            r#"["map",7,1,2,3,1,0]"#,
            "Map { label: Label(7), buf: 1, off: 2, len: 3, dir: ToDev, chan: ChanNo(0) }",
        ),
        (r#"["unmap",0]"#, "Unmap(Label(0))"),
        (r#"["to_cpu",1]"#, "ToCpu(Label(1))"),
        (r#"["to_dev",2]"#, "ToDev(Label(2))"),
        (
            r#"["map_sg",3,[[0,1,2]],2,3]"#,
            concat!(
                "MapSg { label: Label(3), ",
                "entries: SgEntries { items: [SgEntry { buf: 0, off: 1, len: 2 }] }, ",
                "dir: FromDev, chan: ChanNo(3) }"
            ),
        ),
        (
            r#"["unmap_sg",3,1]"#,
            "UnmapSg { label: Label(3), count: 1 }",
        ),
        (
            r#"["calloc",4,64,2]"#,
            "Calloc { label: Label(4), pages: 64, chan: ChanNo(2) }",
        ),
        (r#"["cgive",4]"#, "Cgive(Label(4))"),
        (r#"["ctake",4]"#, "Ctake(Label(4))"),
        (r#"["cfree",4]"#, "Cfree(Label(4))"),
        (
            r#"["copy",1,0,2,1,3,4,8]"#,
            "Copy { chan: ChanNo(1), src: 0, src_off: 2, dst: 1, dst_off: 3, len: 4, cfg: 8 }",
        ),
    ];
    compare(&rt, rt.alloc(), &table)
}

#[test]
fn channels(rt: HostRuntime) -> Result<(), Fail> {
    let table = [
        (r#"["claim",0]"#, "Claim(ChanNo(0))"),
        (r#"["free",1]"#, "Free(ChanNo(1))"),
        (r#"["run",2]"#, "Run(ChanNo(2))"),
        (r#"["poll",3]"#, "Poll(ChanNo(3))"),
        (
            r#"["regs",0,5,"m1.2",3,4]"#,
            "Regs { chan: ChanNo(0), src: At(5), dst: Segment(Label(1), 2), len: 3, cfg: 4 }",
        ),
        (
            r#"["regs",0,"m1","c2",3,4]"#,
            "Regs { chan: ChanNo(0), src: Map(Label(1)), dst: Area(Label(2)), len: 3, cfg: 4 }",
        ),
        (
            r#"["regr",0,4095,8]"#,
            "Regr { chan: ChanNo(0), off: 4095, width: 8 }",
        ),
        (
            r#"["regw",0,0,4,18446744073709551615]"#,
            "Regw { chan: ChanNo(0), off: 0, width: 4, value: 18446744073709551615 }",
        ),
    ];
    compare(&rt, rt.alloc(), &table)
}

#[test]
fn shapes_come_before_limits(rt: HostRuntime) -> Result<(), Fail> {
    let table = [
        (r#"["fence",16,"1"]"#, "Wrong(Shape)"),
        (r#"["fence",16,17]"#, "Wrong(Limit(16))"),
        (r#"["fence",1]"#, "Wrong(Shape)"),
        (r#"["map_sg",1000,[[0,1,2],[3]],0,0]"#, "Wrong(Shape)"),
        (r#"["map_sg",1000,[[9,1,2]],3,4]"#, "Wrong(Limit(1000))"),
        (r#"["map_sg",1,[[3,1,2]],3,4]"#, "Wrong(Limit(3))"),
        (r#"["ld","b02",0,1]"#, "Wrong(Shape)"),
        (r#"["ld","b3",0,1]"#, "Wrong(Limit(3))"),
        (r#"["st","b0",0,"abc"]"#, "Wrong(Shape)"),
        (r#"["hand",0,2]"#, "Wrong(Limit(2))"),
        (r#"["copy",0,0,0,1,0,1,4]"#, "Wrong(Limit(4))"),
        (r#"["jump",1]"#, "Wrong(Shape)"),
        ("[]", "Wrong(Shape)"),
        ("7", "Wrong(Shape)"),
    ];
    compare(&rt, rt.alloc(), &table)
}
