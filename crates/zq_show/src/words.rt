//! What the words of the command ask for.
ghost use Rattle.std.specs.Prelude.{◌≡◌};
ghost use Rattle.zq_show.specs.Words.{asked_of, diagram_of, more_of, most_of, request_of};

use zq_io::words::number;
use zq_key::text::Text;

/// What the words ask for.
#[derive(Clone, Copy)]
pub enum Asked {
    /// A run, in a form.
    Run(Form),
    /// The version.
    Version,
}

/// In which form a run is shown.
#[derive(Clone, Copy)]
pub enum Form {
    /// As a page, with the picture of the first calls or of a request.
    Page(Option<u64>),
    /// As text, with colours or without.
    Plain(bool),
    /// As a sequence diagram in the words of Mermaid, of the first calls or of a request.
    Mermaid(Option<u64>),
}

/// A page of the request that digits name.
fn request(digits: &str) -> Option<Asked>
    ensures { result ≡ request_of digits.now }
{
    let request = number(u64::MAX, digits.as_bytes())?;
    Some(Asked::Run(Form::Page(Some(request))))
}

/// A diagram of the request that digits name.
fn diagram(digits: &str) -> Option<Asked>
    ensures { result ≡ diagram_of digits.now }
{
    let request = number(u64::MAX, digits.as_bytes())?;
    Some(Asked::Run(Form::Mermaid(Some(request))))
}

/// What three words ask for.
fn read_most(word: &Text, next: &Text, digits: &Text) -> Option<Asked>
    ensures { result ≡ most_of word.now next.now digits.now }
{
    match (word.as_str(), next.as_str()) {
        ("--mermaid", "--request") => diagram(digits.as_str()),
        _ => None,
    }
}

/// What words after the first ask for.
fn read_more(word: &Text, next: &Text) -> Option<Asked>
    ensures { result ≡ more_of word.now next.now }
{
    match (word.as_str(), next.as_str()) {
        ("--text", "--color") => Some(Asked::Run(Form::Plain(true))),
        ("--request", digits) => request(digits),
        _ => None,
    }
}

/// What the words ask for, if they ask for anything.
pub fn read_words(words: &[Text]) -> Option<Asked>
    ensures { result ≡ asked_of words.now }
{
    match words {
        [] => Some(Asked::Run(Form::Page(None))),
        [word] => match word.as_str() {
            "--text" => Some(Asked::Run(Form::Plain(false))),
            "--mermaid" => Some(Asked::Run(Form::Mermaid(None))),
            "--version" => Some(Asked::Version),
            _ => None,
        },
        [word, next] => read_more(word, next),
        [word, next, digits] => read_most(word, next, digits),
        _ => None,
    }
}
