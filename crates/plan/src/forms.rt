// The forms of plans.
ghost use Rattle.std.specs.Prelude.{◌≡◌};
ghost use Rattle.rules.specs.Plan.{refusing as refusing_of, plain as plain_of, writing_two, writing as writing_of, settling as settling_of};
ghost use Rattle.rules.specs.Plan.{replying as replying_of, changing as changing_of};

use rules::{Answer, Core, Land, Plan, Sending, SetupChange, Write};

pub fn refusing(c: Core, answer: Answer) -> Plan
    ensures { result ≡ refusing_of c answer }
{
    Plan {
        answer,
        first: Write::Nothing,
        second: Write::Nothing,
        change: SetupChange::Nothing,
        reply: Sending::Nothing,
        next: c,
        land: Land::Stay,
    }
}

pub fn plain(c: Core) -> Plan
    ensures { result ≡ plain_of c }
{
    refusing(c, Answer::Done)
}

pub fn writing_two(c: Core, w: Write, v: Write, l: Land) -> Plan
    ensures { result ≡ writing_two c w v l }
{
    Plan {
        first: w,
        second: v,
        land: l,
        ..plain(c)
    }
}

pub fn writing(c: Core, w: Write, l: Land) -> Plan
    ensures { result ≡ writing_of c w l }
{
    writing_two(c, w, Write::Nothing, l)
}

pub fn settling(c: Core, i: u16) -> Plan
    ensures { result ≡ settling_of c i }
{
    writing(c, Write::Nothing, Land::Settle(i))
}

pub fn replying(c: Core, x: Sending) -> Plan
    ensures { result ≡ replying_of c x }
{
    Plan {
        reply: x,
        ..plain(c)
    }
}

pub fn changing(c: Core, x: SetupChange) -> Plan
    ensures { result ≡ changing_of c x }
{
    Plan {
        change: x,
        ..plain(c)
    }
}
