// The reply to a line of a log.
ghost use Rattle.std.specs.Prelude.{Some};
ghost use Rattle.text.specs.Replies.{reply_text};

use refusal::Refusal;
use std::fmt;

/// What a line of a log is answered by.
#[derive(Clone, Copy, PartialEq, Eq, Debug)]
pub enum Reply {
    /// The line was carried out, and there is nothing to tell.
    Done,
    /// An edge was drawn, and has this number.
    Edge(u32),
    /// The line with this number, counted from 1, was turned down.
    Refused { refusal: Refusal, line: u32 },
}

/// A reply is printed as fields parted by tabs, with no newline: `ok`, `edge` and its number, or `refused` with the
/// refusal's number and detail, the line and the layer's word.
impl fmt::Display for Reply {
    ghost output = { λ x. Some (reply_text x) };

    fn fmt<W: fmt::Write>(&self, f: &mut fmt::Formatter<W>) -> fmt::Result {
        match self {
            Reply::Done => write!(f, "ok"),
            Reply::Edge(edge) => write!(f, "edge\t{edge}"),
            Reply::Refused { refusal, line } => {
                let Refusal {
                    number,
                    detail,
                    layer,
                } = *refusal;
                write!(f, "refused\t{number}\t{detail}\t{line}\t{layer}")
            }
        }
    }
}
