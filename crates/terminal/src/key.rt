// What a key sends.
ghost use Rattle.std.specs.Prelude.{◌≡◌, ◌≤◌, length};
ghost use Rattle.rules.specs.Calls.{key_sends};
ghost use Rattle.terminal.specs.Promise.{KeySent, sending};

use rules::{Answer, Text};

// A text at the front of the room, where it fits.
fn send(text: &[u8], room: &mut [u8]) -> Result<usize, Answer>
    ensures { KeySent (sending text.now (length room.old)) result room.old room.new }
{
    let n = text.len();
    if room.len() < n {
        return Err(Answer::NoRoom);
    }
    room[..n].copy_from_slice(text);
    Ok(n)
}

// The key's bytes; an unprogrammed key sends 01h value 0Dh.
pub(crate) fn press_key(key: Text<8>, v: u8, room: &mut [u8]) -> Result<usize, Answer>
    requires { key.len ≤ 8 }
    ensures { KeySent (sending (key_sends key v) (length room.old)) result room.old room.new }
{
    if key.len == 0 {
        send(&[0x01, v, 0x0d], room)
    } else {
        send(&key.bytes[..key.len as usize], room)
    }
}
