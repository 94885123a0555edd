use mb_base::number;
use mb_problem::Kind;
use std::env;

/// Which part is run, and how often.
#[derive(Clone, Copy)]
pub enum Part {
    /// A document is read, and written again.
    Document { written: bool },
    /// The closed walk of a postman's instance is found so often.
    Walk { times: u32 },
    /// The certificate graph of a kind is built so often.
    Gadget { kind: Kind, times: u32 },
    /// Moments are set in a queue and taken, so many rounds.
    Queue { rounds: u32 },
    /// Moments that only rise are set in a queue for them and taken, so many rounds.
    Rising { rounds: u32 },
}

/// The number that a word spells, up to a million.
fn count(word: &str) -> Option<u32> {
    let count = number(word.as_bytes(), 1_000_000)?;
    u32::try_from(count).ok()
}

/// The part that the words of the command line name.
pub fn read_words(rt: &HostRuntime) -> Option<Part> {
    let mut args = env::args(rt).ok()?;
    args.next()?;
    let name = args.next()?;
    match name.as_str() {
        "document" => Some(Part::Document {
            written: args.next().is_none(),
        }),
        "walk" => Some(Part::Walk {
            times: count(args.next()?.as_str())?,
        }),
        "queue" => Some(Part::Queue {
            rounds: count(args.next()?.as_str())?,
        }),
        "rising" => Some(Part::Rising {
            rounds: count(args.next()?.as_str())?,
        }),
        "gadget" => {
            let kind = Kind::named(args.next()?.as_bytes())?;
            let times = count(args.next()?.as_str())?;
            Some(Part::Gadget { kind, times })
        }
        _ => None,
    }
}
