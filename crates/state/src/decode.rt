// What a byte below 80h comes to after the sequence under way.
ghost use Rattle.std.specs.Prelude.{◌≡◌, ℕ, ◌^◌, ◌<◌, true, List};
ghost use Rattle.rules.specs.Decode.{lookup, controls, idle_rule, escape_rule, judged, feature_rule, field_rule, split_rule, decimal_row_rule};
ghost use Rattle.rules.specs.Decode.{decimal_column_rule, slot_rule, text_rule, spoilt_rule, argument_rule, decode_rule};
ghost use Rattle.rules.specs.Arguments.{attribute_contents};
ghost use Rattle.rules.specs.Possible.{pending_ok};
ghost use Rattle.rules.specs.declared.Command.TheVariants as Command;
ghost use Rattle.rules.specs.declared.Decoded.TheVariants as Decoded;

use crate::possible::{feature_place, is_attribute};
use crate::texts::{is_key, is_label, is_text, slot_end, slot_low, slot_most};
use rules::{
    Answer, Argument, Clear, Command, Contents, Decoded, Edit, Excluded, Mode, Move, Pending, Send,
    Setting, Slot, Window,
};

#[tactic(auto, unfolding(rules::specs::Decode::lookup))]
fn control(b: u8) -> Decoded
    ensures { result ≡ lookup controls (Decoded.Do Command.Nothing) b }
{
    match b {
        0x05 => Decoded::Do(Command::Send(Send::Acknowledge)),
        0x07 => Decoded::Do(Command::Bell),
        0x08 => Decoded::Do(Command::Go(Move::Back)),
        0x09 => Decoded::Do(Command::Go(Move::Tab)),
        0x0a => Decoded::Do(Command::Go(Move::Down)),
        0x0b => Decoded::Do(Command::Go(Move::Up)),
        0x0c => Decoded::Do(Command::Go(Move::Right)),
        0x0d => Decoded::Do(Command::Go(Move::Return)),
        0x0e => Decoded::Do(Command::Turn(Mode::Lock, false)),
        0x0f => Decoded::Do(Command::Turn(Mode::Lock, true)),
        0x1a => Decoded::Do(Command::Clear(Clear::Segment(Contents::Text(0x20)))),
        0x1b => Decoded::Wait(Pending::Escape),
        0x1e => Decoded::Do(Command::Go(Move::Home)),
        0x1f => Decoded::Do(Command::Go(Move::NextLine)),
        _ => Decoded::Do(Command::Nothing),
    }
}

// No sequence under way: 20h to 7Eh is stored, 7Fh does nothing.
#[tactic(auto, unfolding(rules::specs::Decode::idle_rule))]
fn idle(b: u8) -> Decoded
    ensures { result ≡ idle_rule b }
{
    match b {
        0..0x20 => control(b),
        0x20..0x7f => Decoded::Do(Command::Store(Contents::Text(b))),
        _ => Decoded::Do(Command::Nothing),
    }
}

// The byte after ESC.
#[tactic(auto, unfolding(rules::specs::Decode::lookup, rules::specs::Decode::escape_rule))]
fn escape(b: u8) -> Decoded
    ensures { result ≡ escape_rule b }
{
    match b {
        0x20 => Decoded::Do(Command::Send(Send::Identity)),
        0x21 => Decoded::Wait(Pending::Awaits(Argument::FillAttribute)),
        0x22 => Decoded::Do(Command::Turn(Mode::Lock, false)),
        0x23 => Decoded::Do(Command::Turn(Mode::Lock, true)),
        0x26 => Decoded::Do(Command::ProtectOn),
        0x27 => Decoded::Do(Command::Excluded(Excluded::ProtectOff)),
        0x28 => Decoded::Do(Command::Turn(Mode::WriteProtect, false)),
        0x29 => Decoded::Do(Command::Turn(Mode::WriteProtect, true)),
        0x2a => Decoded::Do(Command::Excluded(Excluded::ClearNulls)),
        0x2b => Decoded::Do(Command::Excluded(Excluded::ClearSpaces)),
        0x2c => Decoded::Do(Command::Excluded(Excluded::ClearProtected)),
        0x2d => Decoded::Wait(Pending::Awaits(Argument::Segment)),
        0x2e => Decoded::Wait(Pending::Awaits(Argument::FillCode)),
        0x2f => Decoded::Do(Command::Send(Send::SegmentCursor)),
        0x30 => Decoded::Do(Command::Set(Setting::ClearTabs)),
        0x31 => Decoded::Do(Command::Set(Setting::Tab(true))),
        0x32 => Decoded::Do(Command::Set(Setting::Tab(false))),
        0x34 => Decoded::Do(Command::Send(Send::OpenRow)),
        0x35 => Decoded::Do(Command::Send(Send::OpenSegment)),
        0x36 => Decoded::Do(Command::Excluded(Excluded::SendRow)),
        0x37 => Decoded::Do(Command::Excluded(Excluded::SendSegment)),
        0x3a => Decoded::Do(Command::Clear(Clear::Segment(Contents::Text(0)))),
        0x3b => Decoded::Do(Command::Clear(Clear::Segment(Contents::Text(0x20)))),
        0x3d => Decoded::Wait(Pending::Awaits(Argument::Address)),
        0x3f => Decoded::Do(Command::Send(Send::Cursor)),
        0x41 => Decoded::Wait(Pending::Awaits(Argument::FieldAttribute)),
        0x45 => Decoded::Do(Command::Edit(Edit::InsertRow)),
        0x46 => Decoded::Wait(Pending::Text(Slot::Message, 0)),
        0x47 => Decoded::Wait(Pending::Awaits(Argument::Attribute)),
        0x48 => Decoded::Wait(Pending::Awaits(Argument::Graphic)),
        0x49 => Decoded::Do(Command::Go(Move::BackTab)),
        0x4a => Decoded::Do(Command::Window(Window::Other)),
        0x4b => Decoded::Do(Command::Window(Window::Other)),
        0x4d => Decoded::Do(Command::Send(Send::Cell)),
        0x4e => Decoded::Do(Command::Turn(Mode::Autoscroll, false)),
        0x4f => Decoded::Do(Command::Turn(Mode::Autoscroll, true)),
        0x51 => Decoded::Do(Command::Edit(Edit::InsertCell)),
        0x52 => Decoded::Do(Command::Edit(Edit::DeleteRow)),
        0x54 => Decoded::Do(Command::Clear(Clear::Row(Contents::Text(0x20)))),
        0x56 => Decoded::Do(Command::Clear(Clear::Column)),
        0x57 => Decoded::Do(Command::Edit(Edit::DeleteCell)),
        0x59 => Decoded::Do(Command::Clear(Clear::Rest(Contents::Text(0x20)))),
        0x5d => Decoded::Do(Command::Window(Window::First)),
        0x60 => Decoded::Wait(Pending::Awaits(Argument::Feature)),
        0x61 => Decoded::Wait(Pending::DecimalRow(0, 0)),
        0x62 => Decoded::Do(Command::Send(Send::DecimalCursor)),
        0x69 => Decoded::Do(Command::Go(Move::Tab)),
        0x6a => Decoded::Do(Command::Go(Move::Reverse)),
        0x6b => Decoded::Do(Command::Turn(Mode::LocalEdit, true)),
        0x6c => Decoded::Do(Command::Turn(Mode::LocalEdit, false)),
        0x71 => Decoded::Do(Command::Turn(Mode::Insert, true)),
        0x72 => Decoded::Do(Command::Turn(Mode::Insert, false)),
        0x74 => Decoded::Do(Command::Clear(Clear::Row(Contents::Text(0)))),
        0x78 => Decoded::Wait(Pending::Awaits(Argument::Split)),
        0x79 => Decoded::Do(Command::Clear(Clear::Rest(Contents::Text(0)))),
        0x7a => Decoded::Wait(Pending::Awaits(Argument::Slot)),
        0x7b => Decoded::Do(Command::Go(Move::Home)),
        0x7d => Decoded::Do(Command::Window(Window::Second)),
        _ => Decoded::Reject(Answer::Unknown),
    }
}

// An argument outside its range answers 3.
#[tactic(auto, unfolding(rules::specs::Decode::judged))]
fn judged(ok: bool, d: Command) -> Decoded
    ensures { result ≡ judged ok d }
{
    if ok {
        Decoded::Do(d)
    } else {
        Decoded::Reject(Answer::BadArgument)
    }
}

// attr 20h is a text space.
#[tactic(auto, unfolding(rules::specs::Arguments::attribute_contents))]
pub fn attribute_contents(a: u8) -> Contents
    ensures { result ≡ attribute_contents a }
{
    if a == 0x20 {
        Contents::Text(a)
    } else {
        Contents::Attribute(a)
    }
}

// ESC ` f: 3Ah and 3Bh wish for a narrow and a wide page.
#[tactic(auto, unfolding(rules::specs::Decode::feature_rule))]
fn feature(f: u8) -> Decoded
    ensures { result ≡ feature_rule f }
{
    match f {
        0x3a | 0x3b => Decoded::Do(Command::Set(Setting::Wish(f == 0x3b))),
        _ => judged(feature_place(f) < 5, Command::Set(Setting::Feature(f))),
    }
}

// ESC A n attr.
#[tactic(auto, unfolding(rules::specs::Decode::field_rule, rules::specs::Decode::judged))]
fn field(n: u8, a: u8) -> Decoded
    ensures { result ≡ field_rule n a }
{
    if matches!(n, 0x30..=0x33) && is_attribute(a) {
        Decoded::Do(Command::Set(Setting::Attribute(n - 0x30, a)))
    } else {
        Decoded::Reject(Answer::BadArgument)
    }
}

// ESC x.
#[tactic(auto, unfolding(rules::specs::Decode::split_rule))]
fn split(b: u8) -> Decoded
    ensures { result ≡ split_rule b }
{
    match b {
        0x30 => Decoded::Do(Command::Window(Window::Unsplit)),
        0x31 => Decoded::Wait(Pending::Awaits(Argument::SplitRow)),
        _ => Decoded::Reject(Answer::BadArgument),
    }
}

// ESC a: n digits so far make the row.
#[tactic(auto, unfolding(rules::specs::Decode::digit_rule, rules::specs::Decode::decimal_row_rule))]
fn decimal_row(n: u8, row: u8, b: u8) -> Decoded
    requires { row < 10 ^ n }
    ensures { result ≡ decimal_row_rule n row b }
{
    match b {
        0x52 if 0 < n => Decoded::Wait(Pending::DecimalColumn(row, 0, 0)),
        0x30..=0x39 if n < 2 => Decoded::Wait(Pending::DecimalRow(n + 1, row * 10 + (b - 0x30))),
        _ => Decoded::Reject(Answer::BadArgument),
    }
}

// After R: n digits so far make the column.
#[tactic(auto, unfolding(rules::specs::Decode::digit_rule, rules::specs::Decode::decimal_column_rule))]
fn decimal_column(row: u8, n: u8, column: u16, b: u8) -> Decoded
    requires { column < 10 ^ n }
    ensures { result ≡ decimal_column_rule row n column b }
{
    match b {
        0x43 if 0 < n => Decoded::Do(Command::Go(Move::Decimal(row, column))),
        0x30..=0x39 if n < 3 => {
            let digit = u16::from(b - 0x30);
            Decoded::Wait(Pending::DecimalColumn(row, n + 1, column * 10 + digit))
        }
        _ => Decoded::Reject(Answer::BadArgument),
    }
}

// ESC z.
#[tactic(auto, unfolding(rules::specs::Decode::slot_rule))]
fn slot(v: u8) -> Decoded
    ensures { result ≡ slot_rule v }
{
    if is_key(v) {
        Decoded::Wait(Pending::Text(Slot::Key(v), 0))
    } else if is_label(v) {
        Decoded::Wait(Pending::Text(Slot::Label(v), 0))
    } else {
        judged(v == 0x7f, Command::Set(Setting::HideLine))
    }
}

// A byte of a text, of which n are gathered.
#[tactic(auto, unfolding(rules::specs::Decode::text_rule))]
fn text(x: Slot, n: u8, b: u8) -> Decoded
    ensures { result ≡ text_rule x n b }
{
    if b == slot_end(x) {
        Decoded::Take(x, n)
    } else if n < slot_most(x) && is_text(slot_low(x), b) {
        Decoded::Gather(x, n, b)
    } else {
        Decoded::Wait(Pending::Spoilt(x))
    }
}

// A spoilt text is swallowed to its end.
#[tactic(auto, unfolding(rules::specs::Decode::spoilt_rule))]
fn spoilt(x: Slot, b: u8) -> Decoded
    ensures { result ≡ spoilt_rule x b }
{
    if b == slot_end(x) {
        Decoded::Reject(Answer::BadArgument)
    } else {
        Decoded::Wait(Pending::Spoilt(x))
    }
}

// An awaited argument.
#[tactic(auto, unfolding(rules::specs::Decode::argument_rule))]
fn argument(a: Argument, b: u8) -> Decoded
    ensures { result ≡ argument_rule a b }
{
    match a {
        Argument::Address => Decoded::Wait(Pending::AddressRow(b)),
        Argument::Segment => Decoded::Wait(Pending::SegmentNumber(b)),
        Argument::Split => split(b),
        Argument::SplitRow => Decoded::Do(Command::Window(Window::Split(b))),
        Argument::Attribute => judged(is_attribute(b), Command::Attribute(b)),
        Argument::Graphic => judged(
            matches!(b, 0x30..=0x3f),
            Command::Store(Contents::Graphic(b)),
        ),
        Argument::FillAttribute => judged(
            is_attribute(b),
            Command::Clear(Clear::Segment(attribute_contents(b))),
        ),
        Argument::FillCode => judged(
            matches!(b, 0 | 0x20..=0x7e),
            Command::Clear(Clear::Segment(Contents::Text(b))),
        ),
        Argument::Feature => feature(b),
        Argument::FieldAttribute => Decoded::Wait(Pending::FieldNumber(b)),
        Argument::Slot => slot(b),
    }
}

// The byte b after the sequence p.
#[tactic(auto, unfolding(rules::specs::Decode::decode_rule, rules::specs::Possible::pending_ok))]
pub fn decode(p: Pending, b: u8) -> Decoded
    requires { (g : List ℕ) × (pending_ok p g ≡ true) }
    ensures { result ≡ decode_rule p b }
{
    match p {
        Pending::Idle => idle(b),
        Pending::Escape => escape(b),
        Pending::Awaits(a) => argument(a, b),
        Pending::AddressRow(r) => Decoded::Do(Command::Go(Move::Address(r, b))),
        Pending::SegmentNumber(s) => Decoded::Wait(Pending::SegmentRow(s, b)),
        Pending::SegmentRow(s, r) => Decoded::Do(Command::Window(Window::Place(s, r, b))),
        Pending::DecimalRow(k, row) => decimal_row(k, row, b),
        Pending::DecimalColumn(row, k, column) => decimal_column(row, k, column, b),
        Pending::FieldNumber(f) => field(f, b),
        Pending::Text(x, n) => text(x, n, b),
        Pending::Spoilt(x) => spoilt(x, b),
    }
}
