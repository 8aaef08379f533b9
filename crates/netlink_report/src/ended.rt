//! How a run ends that does not print a report, and where its fault stands.

ghost use Rattle.std.specs.Prelude.{◌≡◌, option_map};
ghost use Rattle.netlink_report.specs.{Where.{hint_of, text_of}, declared.ended.Where.TheVariants.{Nowhere}};

use crate::error::RunError;
use hex_text::Place;
use netlink_packet_route::Located;
use std::fmt;

/// The line for bytes that begin with an envelope.
const HINT: &str =
    "these bytes begin with an envelope (struct nlmsghdr), which `nlshow --hex` reads";

/// Where the fault of a run stands.
#[derive(Clone, Copy, Debug)]
pub enum Where {
    /// In nothing that was read.
    Nowhere,
    /// In the text.
    Text(Place),
    /// In the message that the text stands for, and whether its bytes begin with an envelope.
    Message(Located, bool),
}

/// The line for standard error on the place, without its end: `at line 1, column 2`, or what is wrong with
/// a message, at which attribute and byte.
impl fmt::Display for Where {
    ghost output = { λ place. text_of place };

    fn fmt<W: fmt::Write>(&self, f: &mut fmt::Formatter<W>) -> fmt::Result {
        match self {
            Where::Nowhere => Ok(()),
            Where::Text(place) => write!(f, "at {place}"),
            Where::Message(located, _) => write!(f, "{located}"),
        }
    }
}

/// How a run ends that does not print a report.
#[derive(Clone, Copy, Debug)]
pub struct Ended {
    /// Why.
    pub error: RunError,
    /// Where.
    pub place: Where,
}

impl From<RunError> for Ended {
    ghost from_gives = { λ error ended. ended ≡ record { error = error; place = Nowhere } };

    fn from(error: RunError) -> Ended {
        Ended {
            error,
            place: Where::Nowhere,
        }
    }
}

impl Ended {
    /// The line for standard error, without its end, on the program that reads the text, if it looks like
    /// one for another.
    pub fn hint(&self) -> Option<&'static str>
        ensures { option_map (λ line. line.now) result ≡ hint_of self.now.place }
    {
        match self.place {
            Where::Message(_, true) => Some(HINT),
            _ => None,
        }
    }
}
