use std::alloc::Global;
use zq_io::stop::Stop;
use zq_io::values::flag_of;
use zq_io::words::{print_word, read_word, text_of};
use zq_message::memory::OutOfMemory;

// Whether the word is read as the bytes.
fn is_read(alloc: Global, word: &str, bytes: &str) -> Result<bool, OutOfMemory> {
    Ok(read_word(alloc, word.as_bytes())?.as_slice() == bytes.as_bytes())
}

// Whether the bytes are printed as the word.
fn is_printed(alloc: Global, bytes: &str, word: &str) -> Result<bool, OutOfMemory> {
    Ok(print_word(alloc, bytes.as_bytes())?.as_slice() == word.as_bytes())
}

// Whether the bytes are printed as the word, and are read from it.
fn comes_back(alloc: Global, bytes: &str, word: &str) -> Result<[bool; 2], OutOfMemory> {
    Ok([
        is_printed(alloc, bytes, word)?,
        is_read(alloc, word, bytes)?,
    ])
}

#[test]
fn words_come_back(rt: HostRuntime) {
    for (bytes, word) in [
        ("", "-"),
        ("-", "%2D"),
        ("a b%", "a%20b%25"),
        ("\u{232}\n", "%C8%B2%0A"),
        ("--", "--"),
    ] {
        assert!(rt;
            comes_back(rt.alloc(), bytes, word) == Ok([true, true]),
            "{word}"
        );
    }
}

#[test]
fn other_words_are_read(rt: HostRuntime) {
    for (word, bytes) in [
        ("%", "%"),
        ("%4", "%4"),
        ("%zz", "%zz"),
        ("%c8%b2", "\u{232}"),
    ] {
        assert_eq!(rt; is_read(rt.alloc(), word, bytes), Ok(true));
    }
}

#[test]
fn texts_and_flags(rt: HostRuntime) {
    let alloc = rt.alloc();
    assert!(rt; text_of(alloc, b"%C8%B2").is_ok());
    assert!(rt; matches!(text_of(alloc, b"%C8"), Err(Stop::Bad)));
    assert_eq!(rt; flag_of("c", "p", b"p"), Some(false));
}
