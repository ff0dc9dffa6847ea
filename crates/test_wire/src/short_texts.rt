//! Each reader once, and a text kept in place and one on the heap.
use std::process::Abort;
use std::test::Fail;
use texts::{ShortText, is_name, push_cleaned, read_date, read_number, read_time};

#[test]
fn texts_are_read(rt: HostRuntime) {
    assert_eq!(rt; read_number(b"0012", 4, 1, 12), Some(12));
    assert_eq!(rt; read_date(b"20240229"), Some(20_240_229));
    assert_eq!(rt; read_time(b"25:10:00"), Some(90_600));
    assert!(rt; is_name(b"city_2") && !is_name(b"City"));
}

#[test]
fn texts_are_kept(rt: HostRuntime) -> Result<(), Fail> {
    for text in ["", "S1", "a name of more than twenty-two bytes"] {
        let kept = ShortText::new(rt.alloc(), text)?;
        assert_eq!(rt; kept.as_str(), text);
    }
    let mut line = Vec::new(rt.alloc());
    push_cleaned(b"a\tb\x7f", &mut line)?;
    assert_eq!(rt; line.as_slice(), b"a b ".as_slice());
    Ok(())
}
