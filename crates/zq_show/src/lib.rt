//! The command `zq show`: the run of a script as a page with a picture, or as text.
//!
//! - `escape`: bytes as text in which no markup and no control byte is left.
//! - `row`: the rows of a picture, and which of them ends what another began.
//! - `choice`: which rows concern a request, and the faces that rows name.
//! - `lanes`: the lanes of a picture.
//! - `picture`: the picture of rows.
//! - `fit`: what fits into a list of a page.
//! - `narrow`: the rows of a picture as a list.
//! - `page`: the page: the head, the picture, and the lines with their answers.
//! - `mermaid`: the picture as a sequence diagram.
//! - `plain`: the lines as text for a terminal.
//! - `entry`: a call of a run with what it gave.
//! - `answer`: what a call was answered, as a text.
//! - `machine`: the gateway of a run, with a look at its hats.
//! - `seen`: what decides of a request beside the hats, kept call by call.
//! - `carrier`: which gateway carries a request between two regions.
//! - `reasons`: why a queryable was not asked.
//! - `unreached`: entries of routers that a request does not reach.
//! - `notes`: whom a request asked, and why it did not ask others.
//! - `labels`: what a person reads of a call and of a message.
//! - `rows`: the rows of a picture.
//! - `show`: the page and the text of a run.
//! - `replay`: reads a script line by line, and keeps what each call gave.
//! - `words`: what the words of the command ask for.
//! - `shown`: reads a script from a source, and gives the page or the text of its run to a sink.
#![tactic(auto)]

pub mod answer;
pub mod carrier;
pub mod choice;
pub mod entry;
pub mod escape;
pub mod fit;
pub mod labels;
pub mod lanes;
pub mod machine;
pub mod mermaid;
pub mod narrow;
pub mod notes;
pub mod page;
pub mod picture;
pub mod plain;
pub mod reasons;
pub mod replay;
pub mod row;
pub mod rows;
pub mod seen;
pub mod show;
pub mod shown;
pub mod unreached;
pub mod words;
