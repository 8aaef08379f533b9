//! What may stand behind what was read of a text.

ghost use Rattle.std.specs.Prelude.{◌≡◌, ◌<◌, IfSome, IsNone};
ghost use Rattle.{
  hex.specs.Hex.{hex_digit_value},
  hex_text.specs.{
    HexText.{is_blank, is_x},
    State.{IsState, Leads, Stops},
    declared.state.State.TheVariants.{Between, Comment, Half},
  },
};

/// Where in a text one is.
#[derive(Clone, Copy)]
pub enum State {
    /// Between pairs.
    Between,
    /// Behind a first digit of this value.
    Half(u8),
    /// In a comment.
    Comment,
}

/// Where one is behind `byte`, and the byte whose pair it ends; `None` where no text goes on so.
pub fn step(state: State, byte: u8) -> Option<(State, Option<u8>)>
    requires { IsState state }
    ensures some { IfSome result (λ s. Leads state byte s.0 s.1) }
    ensures state { IfSome result (λ s. IsState s.0) }
    ensures none { IsNone result → Stops state byte }
{
    match state {
        State::Between => behind_pairs(byte),
        State::Half(high) => behind_digit(high, byte),
        State::Comment if byte == b'\n' => Some((State::Between, None)),
        State::Comment => Some((State::Comment, None)),
    }
}

/// The same between pairs.
fn behind_pairs(byte: u8) -> Option<(State, Option<u8>)>
    ensures some { IfSome result (λ s. Leads Between byte s.0 s.1) }
    ensures state { IfSome result (λ s. IsState s.0) }
    ensures none { IsNone result → Stops Between byte }
{
    if byte == b'#' {
        return Some((State::Comment, None));
    }
    if is_blank(byte) {
        return Some((State::Between, None));
    }
    match digit_of(byte) {
        Some(high) => Some((State::Half(high), None)),
        None => None,
    }
}

/// The same behind a first digit.
fn behind_digit(high: u8, byte: u8) -> Option<(State, Option<u8>)>
    requires { high < 16 }
    ensures some { IfSome result (λ s. Leads (Half high) byte s.0 s.1) }
    ensures state { IfSome result (λ s. IsState s.0) }
    ensures none { IsNone result → Stops (Half high) byte }
{
    if high == 0 && is_x(byte) {
        return Some((State::Between, None));
    }
    match digit_of(byte) {
        Some(low) => Some((State::Between, Some(high * 16 + low))),
        None => None,
    }
}

/// Whether `byte` may stand between pairs.
#[tactic(auto, unfolding(crate::specs::HexText::is_blank))]
fn is_blank(byte: u8) -> bool
    ensures { result ≡ is_blank byte }
{
    matches!(byte, b' ' | b'\t' | b'\n' | b'\r' | b':')
}

/// Whether `byte` stands in a prefix behind its zero.
#[tactic(auto, unfolding(crate::specs::HexText::is_x))]
fn is_x(byte: u8) -> bool
    ensures { result ≡ is_x byte }
{
    matches!(byte, b'x' | b'X')
}

/// What a digit stands for.
fn digit_of(byte: u8) -> Option<u8>
    ensures value { result ≡ hex_digit_value byte }
    ensures small { IfSome result (λ digit. digit < 16) }
{
    match byte {
        b'A'..=b'F' => Some(byte - b'A' + 10),
        b'a'..=b'f' => Some(byte - b'a' + 10),
        b'0'..=b'9' => Some(byte - b'0'),
        _ => None,
    }
}
