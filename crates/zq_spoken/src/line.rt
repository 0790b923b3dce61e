//! Which bytes are one line.
ghost use Rattle.std.specs.Prelude.{◌≡◌};
ghost use Rattle.zq_spoken.specs.Line.{is_line};

/// Whether no newline is among them.
pub fn is_line(bytes: &[u8]) -> bool
    ensures { result ≡ is_line bytes.now }
{
    bytes.iter().all(|&byte| byte != b'\n')
}
