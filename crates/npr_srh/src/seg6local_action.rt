//! What is done at a segment, and its numbers (RFC 8986; `linux/seg6_local.h`).

ghost use Rattle.std.specs.Prelude.{◌≡◌, Some};
ghost use Rattle.npr_srh.specs.Seg6LocalAction.{actions, action_text};

use std::fmt;

/// What is done at a local segment: `SEG6_LOCAL_ACTION_*` of `linux/seg6_local.h`.
#[derive(Clone, Copy, Debug, Default, PartialEq, Eq)]
pub enum Seg6LocalAction {
    /// None. It is written as 0, which reads as `Other`.
    #[default]
    Unspec,
    /// Goes on to the next segment.
    End,
    /// The same, over a next hop.
    EndX,
    /// The same, by a table of routes.
    EndT,
    /// Takes the frame out, and sends it on over a link.
    EndDx2,
    /// Takes a packet of version 6 out, and sends it to a next hop.
    EndDx6,
    /// Takes a packet of version 4 out, and sends it to a next hop.
    EndDx4,
    /// Takes a packet of version 6 out, and looks in a table of routes.
    EndDt6,
    /// Takes a packet of version 4 out, and looks in a table of routes.
    EndDt4,
    /// Puts in one more routing header.
    EndB6,
    /// Puts one more header of IP with a routing header around the packet.
    EndB6Encap,
    /// Hands on to a label of MPLS.
    EndBm,
    /// Goes on at a segment that is looked up in a table.
    EndS,
    /// Hands on to a service that knows no segments.
    EndAs,
    /// Hands on to a service, with the address masked.
    EndAm,
    /// Runs a program of BPF.
    EndBpf,
    /// Takes a packet of either version out, and looks in a table of routes.
    EndDt46,
    /// Any other number.
    Other(u32),
}

/// Their numbers and names.
macro_rules! numbers {
    ($body:ident ($($given:tt)*)) => {
        npr_base::$body!(($($given)*) Seg6LocalAction {
            1 End "End";
            2 EndX "End.X";
            3 EndT "End.T";
            4 EndDx2 "End.DX2";
            5 EndDx6 "End.DX6";
            6 EndDx4 "End.DX4";
            7 EndDt6 "End.DT6";
            8 EndDt4 "End.DT4";
            9 EndB6 "End.B6";
            10 EndB6Encap "End.B6.Encaps";
            11 EndBm "End.BM";
            12 EndS "End.S";
            13 EndAs "End.AS";
            14 EndAm "End.AM";
            15 EndBpf "End.BPF";
            16 EndDt46 "End.DT46";
        } {
            0 Unspec "unspec";
        })
    };
}

impl From<u32> for Seg6LocalAction {
    ghost from_gives = { λ number action. action ≡ actions.of number };

    fn from(number: u32) -> Seg6LocalAction {
        numbers!(variant_of_number(number))
    }
}

impl From<Seg6LocalAction> for u32 {
    ghost from_gives = { λ action number. number ≡ actions.number action };

    fn from(action: Seg6LocalAction) -> u32 {
        numbers!(number_of_variant(action))
    }
}

/// The name of RFC 8986, and of any other action its number.
impl fmt::Display for Seg6LocalAction {
    ghost output = { λ action. Some (action_text action) };

    fn fmt<W: fmt::Write>(&self, f: &mut fmt::Formatter<W>) -> fmt::Result {
        numbers!(write_variant(self, f, "other({})"))
    }
}
