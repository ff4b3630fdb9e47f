// The terminal's state as values: power-on, readers and setters, the keys, which states are possible, and what a byte comes to.
#![tactic(auto)]

pub mod logic; // tests on numbers
pub mod width; // the width of a page
pub mod screen; // the active segment and its cursor
pub mod core_parts; // the other parts of the core
pub mod texts; // slots, the bytes gathered, and texts
pub mod keys; // function keys and labels
pub mod setup; // changes of the set-up and of the gathered bytes
pub mod sending; // the send under way
pub mod possible; // which states are possible
pub mod decode; // what a byte comes to after the sequence under way

ghost use Rattle.std.specs.Prelude.{◌≡◌};
ghost use Rattle.rules.specs.State.{number};
ghost use Rattle.rules.specs.Possible.{power_on};

use rules::{Answer, Core, Modes, Pending, Personality, Screen, Sending, Setup, State};

// The number of document 01; 5 is unused.
pub fn answer_number(a: Answer) -> u8
    ensures { result ≡ number a }
{
    a as u8
}

#[tactic(auto, unfolding(rules::specs::Possible::power_on))]
pub fn power_on_state(m: Personality) -> State
    ensures { result ≡ power_on m }
{
    State {
        core: Core {
            screen: Screen {
                wide: false,
                active: 0,
                split: 0,
                cursor0: 0,
                cursor1: 0,
            },
            modes: Modes {
                protect: false,
                writeprotect: false,
                insert: false,
                autoscroll: true,
                locked: false,
                local: false,
            },
            bells: 0,
            pending: Pending::Idle,
            personality: m,
            attribute: 0,
        },
        sending: Sending::Nothing,
        gathered: [0; 46],
        setup: Setup {
            tabs: [false; 132],
            attributes: [0x30; 4],
            features: [0x31, 0x35, 0x37, 0x39, 0x40],
            keys: [texts::no_text(); 32],
            labels: [texts::no_text(); 16],
            message: texts::no_text(),
            shifted: false,
            wish: false,
        },
    }
}
