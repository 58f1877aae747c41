use crate::{
    key_text, number_text, push_key, push_number, read_hex, read_key, read_name, read_number,
};
use std::alloc::{AllocError, Global};
use std::test::Fail;

// The text of the 32-byte value that a word is, if it is one.
fn printed(alloc: Global, word: &str) -> Result<Option<String>, AllocError> {
    match read_key(word.as_bytes()) {
        Some(key) => Ok(Some(key_text(alloc, &key)?)),
        None => Ok(None),
    }
}

#[test]
fn keys_are_read_and_printed(rt: HostRuntime) -> Result<(), Fail> {
    let alloc = rt.alloc();
    let whole = "0102030405060708090a0b0c0d0e0f101112131415161718191a1b1c1d1e1f20";
    let rows = [
        ("01", "01"),
        ("Aa0B00", "aa0b"),
        ("00", "00"),
        ("0000", "00"),
        ("00000307", "00000307"),
        (
            "FF00000000000000000000000000000000000000000000000000000000000000",
            "ff",
        ),
        (whole, whole),
    ];
    for (word, text) in rows {
        let text = String::from_str(alloc, text)?;
        assert!(rt; printed(alloc, word)? == Some(text), "{word}");
    }
    for word in [
        "",
        "0",
        "012",
        "0g",
        "+1",
        "0x",
        "\u{e9}",
        "000000000000000000000000000000000000000000000000000000000000000001",
    ] {
        assert!(rt; printed(alloc, word)?.is_none(), "{word}");
    }
    assert!(rt;
        read_key(b"ff07").map(|key| (key[0], key[1], key[2], key[31])) == Some((255, 7, 0, 0))
    );
    let mut text = String::from_str(alloc, "get ")?;
    push_key(&mut text, &[0; 32])?;
    assert!(rt; text.as_str() == "get 00");
    Ok(())
}

#[test]
fn bytes_are_read(rt: HostRuntime) -> Result<(), Fail> {
    let alloc = rt.alloc();
    for (word, bytes) in [("", [].as_slice()), ("00Ff7a", [0, 255, 122].as_slice())] {
        let read = read_hex(alloc, word.as_bytes())?;
        assert!(rt; read.is_some_and(|read| read.as_slice() == bytes), "{word}");
    }
    for word in ["0", "0g", "g0", "001"] {
        assert!(rt; read_hex(alloc, word.as_bytes())?.is_none(), "{word}");
    }
    Ok(())
}

#[test]
fn numbers_are_read_and_printed(rt: HostRuntime) -> Result<(), Fail> {
    let alloc = rt.alloc();
    for (word, number) in [
        ("0", 0),
        ("00000000000000000007", 7),
        ("18446744073709551615", 18446744073709551615),
    ] {
        assert!(rt; read_number(word.as_bytes()) == Some(number), "{word}");
    }
    for word in [
        "",
        "18446744073709551616",
        "99999999999999999999",
        "000000000000000000007",
        "+5",
        "-5",
        "1a",
        " 1",
        "\u{e9}",
    ] {
        assert!(rt; read_number(word.as_bytes()).is_none(), "{word}");
    }
    for (number, text) in [
        (0, "0"),
        (10, "10"),
        (18446744073709551615, "18446744073709551615"),
    ] {
        assert!(rt; number_text(alloc, number)?.as_str() == text);
    }
    for (number, line) in [
        (0, "root 0"),
        (9, "root 9"),
        (10, "root 10"),
        (700, "root 700"),
    ] {
        let mut text = String::from_str(alloc, "root ")?;
        push_number(&mut text, number)?;
        assert!(rt; text.as_str() == line);
    }
    Ok(())
}

#[test]
fn names_are_read(rt: HostRuntime) -> Result<(), Fail> {
    let longest = "abcdefghijklmnopqrstuvwxyzABCDEFGHIJKLMNOPQRSTUVWXYZ0123456789_-";
    for name in ["s", "0-", "_", longest] {
        assert!(rt; read_name(name.as_bytes()) == Some(name), "{name}");
    }
    for word in ["", "-a", "a/b", "a.b", "a b", "\u{e9}"] {
        assert!(rt; read_name(word.as_bytes()).is_none(), "{word}");
    }
    Ok(())
}
