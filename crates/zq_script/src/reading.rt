//! Lines that are read from a source one after another.
ghost use Rattle.std.specs.Prelude.{◌≡◌, ◌≢◌, ◌<◌, ◌∷◌, [], ℕ, List, Ok, Err, OnErr, true, false, length};
ghost use Rattle.std.specs.Io.KnownBytes.{IsAtEnd, Keeps};
ghost use Rattle.zq_io.specs.declared.transfer.TheConstants.{LIMIT};
ghost use Rattle.zq_io.specs.Streams.{Rose};
ghost use Rattle.zq_script.specs.Reading.{ReadsLines, ReadsPart};

use zq_io::streams::Source;
use zq_io::transfer::{LIMIT, ReadRefusal};

/// Reads the next line in place of another, without its newline, which the last may lack; false at
/// the end. No byte is read behind the newline, so each read asks for one byte: a source that reads
/// ahead makes that cheap. `TooLong` where the line has more than `LIMIT` bytes.
pub fn read_line<S: Source>(source: &mut S, line: &mut Vec<u8>) -> Result<bool, ReadRefusal>
    ensures line { result ≡ Ok true → ReadsLines (S.left source.old) (S.left source.new) (line.new.items ∷ []) }
    ensures end { result ≡ Ok false → Keeps (S.left source.old) (S.left source.new) }
    ensures ends { result ≡ Ok false → IsAtEnd (S.left source.new) }
    ensures part { OnErr result ((part : List ℕ) × ReadsPart (S.left source.old) (S.left source.new) part × (result ≡ Err ReadRefusal.TooLong → LIMIT < length part)) }
    ensures fault { result ≡ Err ReadRefusal.ReadFault → Rose (S.faults source.old) (S.faults source.new) }
    ensures quiet { result ≢ Err ReadRefusal.ReadFault → S.faults source.new ≡ S.faults source.old }
{
    let mut byte = [0];
    line.clear();
    'bytes: while line.len() <= LIMIT {
        let Ok(count) = source.read(&mut byte) else {
            return Err(ReadRefusal::ReadFault);
        };
        if count == 0 {
            return Ok(!line.is_empty());
        }
        if byte[0] == b'\n' {
            return Ok(true);
        }
        if line.push(byte[0]).is_err() {
            return Err(ReadRefusal::OutOfMemory);
        }
    }
    Err(ReadRefusal::TooLong)
}
