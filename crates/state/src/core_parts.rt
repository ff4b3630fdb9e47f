// Whether a sequence is under way, and setters of the core.
ghost use Rattle.std.specs.Prelude.{◌≡◌, ◌+◌, ◌%◌};
ghost use Rattle.rules.specs.State.{with_screen, with_modes, with_bells, with_attribute, awaiting, idle, is_idle, with_protect, with_mode};

use rules::{Core, Mode, Modes, Pending, Screen};

pub fn with_screen(c: Core, x: Screen) -> Core
    ensures { result ≡ with_screen c x }
{
    Core { screen: x, ..c }
}

pub fn with_modes(c: Core, m: Modes) -> Core
    ensures { result ≡ with_modes c m }
{
    Core { modes: m, ..c }
}

pub fn with_bells(c: Core, n: u8) -> Core
    ensures { result ≡ with_bells c n }
{
    Core { bells: n, ..c }
}

pub fn with_attribute(c: Core, a: u8) -> Core
    ensures { result ≡ with_attribute c a }
{
    Core { attribute: a, ..c }
}

// Another sequence is under way.
pub fn awaiting(c: Core, q: Pending) -> Core
    ensures { result ≡ awaiting c q }
{
    Core { pending: q, ..c }
}

pub fn idle(c: Core) -> Core
    ensures { result ≡ idle c }
{
    awaiting(c, Pending::Idle)
}

pub fn is_idle(q: Pending) -> bool
    ensures { result ≡ is_idle q }
{
    matches!(q, Pending::Idle)
}

// One bell more, modulo 256.
pub fn next_bell(n: u8) -> u8
    ensures { result ≡ (n + 1) % 256 }
{
    n.wrapping_add(1)
}

pub fn with_protect(m: Modes, b: bool) -> Modes
    ensures { result ≡ with_protect m b }
{
    Modes { protect: b, ..m }
}

#[tactic(auto, unfolding(rules::specs::State::with_mode))]
pub fn with_mode(m: Modes, k: Mode, b: bool) -> Modes
    ensures { result ≡ with_mode m k b }
{
    match k {
        Mode::WriteProtect => Modes {
            writeprotect: b,
            ..m
        },
        Mode::Insert => Modes { insert: b, ..m },
        Mode::Autoscroll => Modes { autoscroll: b, ..m },
        Mode::Lock => Modes { locked: b, ..m },
        Mode::LocalEdit => Modes { local: b, ..m },
    }
}
