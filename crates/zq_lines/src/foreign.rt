//! What a line may have that is no part of the format.
ghost use Rattle.std.specs.Prelude.{◌≡◌};
ghost use Rattle.std.specs.Option.{option_map};
ghost use Rattle.zq_lines.specs.Foreign.{edge, ends_with, foreign, is_blank, starts_with};

use zq_io::words::is;

/// What is said of a byte order mark.
pub const MARK: &str = "the line begins with a byte order mark, which is no part of the format";

/// What is said of a comment.
pub const COMMENT: &str = "comments are no part of the format";

/// What is said of a line that ends with a carriage return.
pub const RETURN: &str =
    "the line ends with a carriage return: lines end with a newline alone (LF, not CRLF)";

/// What is said of an empty line, or one of spaces alone.
pub const BLANK: &str = "blank lines are no part of the format";

/// What is said of a line that begins with a space.
pub const LEADING: &str = "the line begins with a space";

/// What is said of a line that ends with a space.
pub const TRAILING: &str = "the line ends with a space";

/// What is said of a line `worker`.
pub const WORKER: &str =
    "`worker` is a line for `share W SLOTS` alone, at most W times, and no word follows it";

/// The bytes of a byte order mark.
pub const MARK_BYTES: &[u8] = &[0xEF, 0xBB, 0xBF];

/// Whether a line begins with these bytes.
fn starts_with(bytes: &[u8], line: &[u8]) -> bool
    ensures { result ≡ starts_with bytes.now line.now }
{
    let (front, _) = line.split_at(bytes.len().min(line.len()));
    front == bytes
}

/// Whether the last byte of a line is this.
fn ends_with(byte: u8, line: &[u8]) -> bool
    ensures { result ≡ ends_with byte line.now }
{
    let (_, back) = line.split_at(line.len().saturating_sub(1));
    back == [byte].as_slice()
}

/// Whether a line has spaces alone.
fn is_blank(line: &[u8]) -> bool
    ensures { result ≡ is_blank line.now }
{
    line.iter().all(|b| *b == b' ')
}

/// What stands too much at an edge of a line, as a sentence, if anything does.
fn edge(line: &[u8]) -> Option<&'static str>
    ensures { option_map (λ t. t.now) result ≡ edge line.now }
{
    if is_blank(line) {
        Some(BLANK)
    } else if starts_with(b" ", line) {
        Some(LEADING)
    } else if ends_with(b' ', line) {
        Some(TRAILING)
    } else {
        None
    }
}

/// What a line has that is no part of the format, as a sentence, if it has such.
pub fn foreign(line: &[u8]) -> Option<&'static str>
    ensures { option_map (λ t. t.now) result ≡ foreign line.now }
{
    if starts_with(MARK_BYTES, line) {
        Some(MARK)
    } else if starts_with(b"#", line) {
        Some(COMMENT)
    } else if ends_with(b'\r', line) {
        Some(RETURN)
    } else {
        edge(line)
    }
}
