// Tests on numbers.
ghost use Rattle.std.specs.Prelude.{◌≡◌, ◌+◌, ◌<◌};
ghost use Rattle.rules.specs.Cell.{among};

// One of the n numbers from `first` on.
pub fn among(first: u8, n: u8, v: u8) -> bool
    requires { first + n < 256 }
    ensures { result ≡ among first n v }
{
    first <= v && v < first + n
}
