// What a cell may hold.
ghost use Rattle.std.specs.Prelude.{◌≡◌};
ghost use Rattle.rules.specs.Session.{printable};

pub fn is_printable(byte: u8) -> bool
    ensures { result ≡ printable byte }
{
    32 <= byte && byte <= 126
}
