use std::test::Fail;
use zq_message::items::Items;
use zq_message::text::Bytes;
use zq_show::escape::{in_page, in_picture, in_text};
use zq_show::page::{BadLine, Shown};
use zq_show::plain::plain;

/// What a hostile script may say, and how it stands in a page.
#[test]
fn texts_bring_no_markup(rt: HostRuntime) -> Result<(), Fail> {
    for (bytes, shown) in [
        (
            "<script>alert(1)</script>",
            "&lt;script&gt;alert(1)&lt;/script&gt;",
        ),
        ("\"' onload=x", "&#34;&#39; onload=x"),
        ("a&lt;b", "a&amp;lt;b"),
        ("\u{1b}[31m\n", "%1B[31m%0A"),
        ("\u{e9}", "%C3%A9"),
    ] {
        let page = in_page(rt.alloc(), bytes.as_bytes())?;
        assert_eq!(rt; page.as_slice(), shown.as_bytes());
    }
    Ok(())
}

#[test]
fn labels_are_cut_off(rt: HostRuntime) -> Result<(), Fail> {
    let label = in_picture(rt.alloc(), b"012345678901234567890123456789012345678<41")?;
    assert_eq!(rt;
        label.as_slice(),
        b"012345678901234567890123456789012345678&lt;&#8230;".as_slice()
    );
    Ok(())
}

#[test]
fn no_byte_leaves_its_line(rt: HostRuntime) -> Result<(), Fail> {
    let text = in_text(rt.alloc(), b"a\n\xff b")?;
    assert_eq!(rt; text.as_slice(), b"a%0A%FF b".as_slice());
    Ok(())
}

#[test]
fn a_bad_line_is_told(rt: HostRuntime) -> Result<(), Fail> {
    let alloc = rt.alloc();
    let bad = BadLine {
        number: 1,
        text: Bytes::new(alloc, b"<x>")?,
        reason: Bytes::new(alloc, b"`<x>` is no call")?,
    };
    let shown = Shown {
        head: Items::new(alloc),
        faces: Items::new(alloc),
        lines: Items::new(alloc),
        bad: Some(bad),
        stands: Items::new(alloc),
        scope: Bytes::new(alloc, b"")?,
        lanes: Items::new(alloc),
        rows: Items::new(alloc),
    };
    let text = plain(alloc, false, &shown)?;
    assert_eq!(rt;
        text.as_slice(),
        b"1  <x>\n    bad line: `<x>` is no call\n".as_slice()
    );
    Ok(())
}
