//! What faults and numbers tell, over their definitions alone. Each function does nothing, and its
//! contract is the law.

ghost use Rattle.std.specs.Prelude.{◌≡◌, ℕ, List};
ghost use Rattle.{
  netlink_packet_route.specs.{
    Nests.{FromBytes},
    Stops.{StandsIn},
    declared.{framing.DecodeError.{DecodeError}, kind.MessageKind.{MessageKind}, nests.Nest.{Nest}},
  },
  npr_c.specs.{Faults.{located}, Nests.{nest_context, nest_of, nest_set}},
};

/// The first fault of a message stands at one place.
pub fn law_places()
    ensures { (kind : MessageKind) (bytes : List ℕ) (j k : ℕ) (d e : DecodeError) → StandsIn kind bytes j d → StandsIn kind bytes k e → j ≡ k }
{}

/// Two refusals that are told alike are one.
pub fn law_located()
    ensures { (d e : DecodeError) (j k : ℕ) → located d j ≡ located e k → d ≡ e }
{}

/// What names a list comes back from its two numbers, if they are of bytes.
pub fn law_nests()
    ensures { (nest : Nest) → FromBytes nest → nest_of (nest_set nest) (nest_context nest) ≡ nest }
{}
