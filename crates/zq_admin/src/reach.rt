//! Which of the keys behind a front can meet a key.
ghost use Rattle.std.specs.Prelude.{◌≡◌, IfSome, IsTrue, option_copied, true};
ghost use Rattle.zq_key.specs.Key.{is_key as key_of};
ghost use Rattle.zq_key.specs.Space.{behind};
ghost use Rattle.zq_io.specs.Words.{lacks};
ghost use Rattle.zq_admin.specs.Reach.{Reaches};

use zq_key::pruning::apart;

/// Which of the keys behind a front can meet a key.
#[derive(Clone, Copy)]
pub enum Reach<'a> {
    /// None of them.
    Nothing,
    /// Those that meet this key where they stand behind the front.
    Met(&'a str),
    /// All of them may.
    All,
}

/// What is left of a text that stands behind a front.
fn left_behind<'a>(front: &str, text: &'a str) -> Option<&'a str>
    ensures { IfSome (option_copied result) (λ rest. text.now ≡ behind front.now rest) }
{
    text.strip_prefix(front)?.strip_prefix('/')
}

/// Which of the keys behind a front can meet the key. Where the key itself stands behind the front, its rest
/// says it; else the first byte in which the two differ, if nothing wild stands before it.
pub fn reach_of<'a>(front: &str, key: &'a str) -> Reach<'a>
    requires key { IsTrue (key_of key.now) }
    requires front { lacks 42 front.now ≡ true }
    ensures { Reaches front.now key.now result }
{
    if let Some(rest) = left_behind(front, key) {
        return Reach::Met(rest);
    }
    match apart(front.as_bytes(), key.as_bytes()) {
        Some(_) => Reach::Nothing,
        None => Reach::All,
    }
}
