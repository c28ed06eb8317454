// Bytes as text, for every crate that reads or prints: what is a digit. The names of the bytes, the number that
// digits make and the lines of an input are definitions, in specs/.
#![tactic(auto)]

ghost use Rattle.std.specs.Prelude.{◌≡◌};
ghost use Rattle.text.specs.Bytes.{is_digit};

#[tactic(auto, unfolding(crate::specs::Bytes::is_digit))]
pub fn is_digit(b: u8) -> bool
    ensures { result ≡ is_digit b }
{
    matches!(b, b'0'..=b'9')
}
