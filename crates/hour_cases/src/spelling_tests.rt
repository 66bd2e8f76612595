use crate::spelling::{bytes_of, lines_of};

#[test]
fn escapes(rt: HostRuntime) -> anyhow::Result<()> {
    for (text, lines) in [
        ("a\\nb", "a\nb"),
        ("n\\n\\n", "n\n\n"),
        ("1\\ 2\\", "1 2"),
        ("\\\\n", "\n"),
    ] {
        assert!(rt; lines_of(rt.alloc(), text)?.as_slice() == lines.as_bytes());
    }
    Ok(())
}

#[test]
fn digits(rt: HostRuntime) -> anyhow::Result<()> {
    assert!(rt; bytes_of(rt.alloc(), "00ff7a")?.as_slice() == [0, 255, 122].as_slice());
    // the bytes end at a capital, and at half a pair
    assert!(rt; bytes_of(rt.alloc(), "0dA0ff")?.as_slice() == [13].as_slice());
    assert!(rt; bytes_of(rt.alloc(), "0d1")?.as_slice() == [13].as_slice());
    Ok(())
}
