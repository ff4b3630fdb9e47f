// Function keys and key labels, by the values of ESC z.
ghost use Rattle.std.specs.Prelude.{◌≡◌, true, [], get_or};
ghost use Rattle.rules.specs.State.{key_place, label_place};
ghost use Rattle.rules.specs.Arguments.{is_key};

use rules::Text;

// The place of a key, from 0.
pub fn key_place(v: u8) -> u8
    ensures { result ≡ key_place v }
{
    v.saturating_sub(if v < 0x60 { 0x40 } else { 0x50 })
}

// The place of a label, from 0.
pub fn label_place(v: u8) -> u8
    ensures { result ≡ label_place v }
{
    v.saturating_sub(if v < 0x50 { 0x30 } else { 0x48 })
}

// The key of a value.
#[tactic(auto, unfolding(rules::specs::Arguments::is_key))]
pub fn key_at(keys: [Text<8>; 32], v: u8) -> Text<8>
    requires { is_key v ≡ true }
    ensures { result ≡ get_or keys (key_place v) record { len = 0; bytes = [] } }
{
    keys[usize::from(key_place(v))]
}
