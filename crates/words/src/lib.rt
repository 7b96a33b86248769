// What the definitions and laws of every crate are written with: choices, tests on numbers, lists given by their elements. And the one
// test on bits that the code needs.
#![tactic(auto)]

ghost use Rattle.std.specs.Prelude.{◌≡◌};
ghost use Rattle.words.specs.Words.{bit};

// The bit of this weight is set in the byte; the weight 0 is no bit.
#[tactic(auto, unfolding(crate::specs::Words::bit))]
pub fn bit(weight: u8, byte: u8) -> bool
    ensures { result ≡ bit weight byte }
{
    weight != 0 && byte / weight % 2 == 1
}
