//! What no clause says: that the shapes and limits are the written format's, on both sides of each, and that paths are
//! told as the format has them. The values are worked by hand.

use nc_num::{ChanNo, Dir, HartNo, Label};
use nc_values::{
    Path, Refused, ScenFault, Wrong, below, chan, digit_below, dir, hart, is_ram, is_size, label,
    list_at, most, number, number_at, number_below, number_in, number_to_at, once, register,
    value_of, wide,
};
use std::alloc::Global;
use std::test::Fail;

const MOST: u64 = 18_446_744_073_709_551_615;

#[test]
fn numbers_of_json(rt: HostRuntime) {
    let table = [
        ("0", Ok(0)),
        ("18446744073709551615", Ok(MOST)),
        ("18446744073709551616", Err(Wrong::Shape)),
        ("-1", Err(Wrong::Shape)),
        ("1.0", Err(Wrong::Shape)),
        ("1e2", Err(Wrong::Shape)),
        ("\"1\"", Err(Wrong::Shape)),
        ("null", Err(Wrong::Shape)),
    ];
    for (text, want) in table {
        let Ok(value) = value_of(rt.alloc(), text.as_bytes()) else {
            assert!(rt; false, "{text}");
            continue;
        };
        assert_eq!(rt; number(&value), want, "{text}");
    }
}

#[test]
fn limits_of_numbers(rt: HostRuntime) {
    assert_eq!(rt;
        (most(15, 15), most(16, 15)),
        (Ok(15), Err(Wrong::Limit(16)))
    );
    assert_eq!(rt; (below(3, 4), below(4, 4)), (Ok(3), Err(Wrong::Limit(4))));
    assert_eq!(rt; wide(4_294_967_295), Ok(4_294_967_295));
    assert_eq!(rt; wide(4_294_967_296), Err(Wrong::Limit(4_294_967_296)));
    assert_eq!(rt;
        (label(999), label(1000)),
        (Ok(Label(999)), Err(Wrong::Limit(1000)))
    );
    assert_eq!(rt;
        (hart(1, 2), hart(2, 2)),
        (Ok(HartNo(1)), Err(Wrong::Limit(2)))
    );
    assert_eq!(rt; (chan(3), chan(4)), (Ok(ChanNo(3)), Err(Wrong::Limit(4))));
    assert_eq!(rt; (dir(0), dir(1)), (Ok(Dir::Both), Ok(Dir::ToDev)));
    assert_eq!(rt; (dir(2), dir(3)), (Ok(Dir::FromDev), Err(Wrong::Limit(3))));
    assert_eq!(rt; (once(11), once(4)), (Ok(11), Err(Wrong::Limit(4))));
    assert_eq!(rt; once(4_294_967_296), Err(Wrong::Limit(4_294_967_296)));
    assert!(rt; is_size(32) && is_size(64) && is_size(128) && !is_size(96));
    assert!(rt; is_ram(4096) && is_ram(1_048_576) && !is_ram(0) && !is_ram(4095));
    assert!(rt; !is_ram(1_052_672));
}

#[test]
fn environment_registers(rt: HostRuntime) {
    for (text, want) in [
        ("16", Ok(16)),
        ("32", Err(Wrong::Limit(32))),
        ("48", Ok(48)),
    ] {
        let Ok(value) = value_of(rt.alloc(), text.as_bytes()) else {
            assert!(rt; false, "{text}");
            continue;
        };
        assert_eq!(rt; register(&value), want, "{text}");
    }
}

#[test]
fn numbers_of_texts(rt: HostRuntime) {
    assert_eq!(rt; (number_in(b"0"), number_in(b"10")), (Some(0), Some(10)));
    assert_eq!(rt; (number_in(b""), number_in(b"00")), (None, None));
    assert_eq!(rt; (number_in(b"+1"), number_in(b"1a")), (None, None));
    assert_eq!(rt; number_in(b"18446744073709551615"), Some(MOST));
    assert_eq!(rt; number_in(b"18446744073709551616"), None);
    assert_eq!(rt;
        (number_below(b"7", 8), number_below(b"8", 8)),
        (Some(7), None)
    );
    assert_eq!(rt;
        (digit_below(b'3', 4), digit_below(b'4', 4)),
        (Some(3), None)
    );
    assert_eq!(rt; digit_below(b'/', 4), None);
}

/// Returns what a reader answers: the number, or what is wrong and where.
fn answer(alloc: Global, read: Result<u64, ScenFault>) -> Result<String, Fail> {
    let text = match &read {
        Ok(n) => format!(in alloc; "read {n}")?,
        Err(ScenFault::Refused(Refused::Shape(path))) => {
            let path = path.as_str();
            format!(in alloc; "shape {path}")?
        }
        Err(ScenFault::Refused(Refused::Limit(path, n))) => {
            let path = path.as_str();
            format!(in alloc; "limit {path} {n}")?
        }
        Err(_) => String::from_str(alloc, "other")?,
    };
    Ok(text)
}

#[test]
fn paths(rt: HostRuntime) -> Result<(), Fail> {
    let alloc = rt.alloc();
    let root = Path::root(alloc);
    let harts = Path::of(alloc, "harts")?;
    let hart = harts.position(alloc, 2)?;
    let script = hart.under(alloc, "script")?;
    assert_eq!(rt; root.told(alloc)?.as_str(), ".");
    assert_eq!(rt; root.under(alloc, "ram")?.as_str(), "ram");
    assert_eq!(rt; root.position(alloc, 7)?.as_str(), "7");
    assert_eq!(rt; script.told(alloc)?.as_str(), "harts.2.script");
    assert_eq!(rt; Path::new(String::from_str(alloc, "a.b")?).as_str(), "a.b");
    Ok(())
}

#[test]
fn what_is_wrong_is_told_with_its_path(rt: HostRuntime) -> Result<(), Fail> {
    let alloc = rt.alloc();
    let root = Path::root(alloc);
    let hart = Path::of(alloc, "harts")?.position(alloc, 2)?;
    let Ok(object) = value_of(alloc, br#"{"at":9,"text":"9","list":[1,2,3]}"#) else {
        assert!(rt; false);
        return Ok(());
    };
    let told = answer(alloc, number_at(alloc, &object, &hart, "at"))?;
    assert_eq!(rt; told.as_str(), "read 9");
    let told = answer(alloc, number_at(alloc, &object, &hart, "text"))?;
    assert_eq!(rt; told.as_str(), "shape harts.2.text");
    let told = answer(alloc, number_at(alloc, &object, &root, "none"))?;
    assert_eq!(rt; told.as_str(), "shape none");
    let told = answer(alloc, number_to_at(alloc, &object, &hart, "at", 9))?;
    assert_eq!(rt; told.as_str(), "read 9");
    let told = answer(alloc, number_to_at(alloc, &object, &hart, "at", 8))?;
    assert_eq!(rt; told.as_str(), "limit harts.2.at 9");
    let three = list_at(alloc, &object, &hart, "list", 3, 3).map(|items| items.len() as u64);
    assert_eq!(rt; answer(alloc, three)?.as_str(), "read 3");
    let four = list_at(alloc, &object, &hart, "list", 4, 9).map(|items| items.len() as u64);
    assert_eq!(rt; answer(alloc, four)?.as_str(), "limit harts.2.list 3");
    Ok(())
}
