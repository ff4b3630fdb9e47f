// Rooms and lists that are lent to calls: looked at after.
ghost use Rattle.std.specs.Prelude.{◌≡◌, take, drop};
ghost use Rattle.replay_text.specs.Room.{is_untouched};

// The first n of a room's elements, all of them where it has fewer; and the others.
pub fn split<T>(room: &[T], n: usize) -> (&[T], &[T])
    ensures front { result.0.now ≡ take n room.now }
    ensures others { result.1.now ≡ drop n room.now }
{
    room.split_at(n.min(room.len()))
}

// Whether every byte, or every number, of a part is still v.
pub fn is_untouched<T: PartialEq + Copy>(part: &[T], v: T) -> bool
    ensures { result ≡ is_untouched T.eq v part.now }
{
    part.iter().all(|x| *x == v)
}
