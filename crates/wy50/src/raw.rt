// The state as C holds it: numbers alone, so that whatever a caller fills in is a value. No struct has padding but the results.

// A function key or a label: the first `len` of `bytes`.
#[repr(C)]
#[derive(Clone, Copy)]
pub struct RawKey {
    pub len: u8,
    pub bytes: [u8; 8],
}

// The host message: the first `len` of `bytes`.
#[repr(C)]
#[derive(Clone, Copy)]
pub struct RawMessage {
    pub len: u8,
    pub bytes: [u8; 46],
}

// `wide` is 0 or 1, in two bytes, so that nothing is padded.
#[repr(C)]
#[derive(Clone, Copy)]
pub struct RawScreen {
    pub wide: u16,
    pub active: u8,
    pub split: u8,
    pub cursor0: u16,
    pub cursor1: u16,
}

// Each 0 or 1. `local` is local edit.
#[repr(C)]
#[derive(Clone, Copy)]
pub struct RawModes {
    pub protect: u8,
    pub writeprotect: u8,
    pub insert: u8,
    pub autoscroll: u8,
    pub locked: u8,
    pub local: u8,
}

// The sequence under way: which one it is, and its numbers in their order, 0 where it has fewer than three.
#[repr(C)]
#[derive(Clone, Copy, PartialEq, Eq)]
pub struct RawSequence {
    pub kind: u16,
    pub first: u8,
    pub second: u8,
    pub third: u16,
}

// The send under way: the command that asked for it, what stands at its place, and the number of the place; all 0 where there is none.
#[repr(C)]
#[derive(Clone, Copy, PartialEq, Eq)]
pub struct RawSending {
    pub command: u8,
    pub kind: u8,
    pub place: u16,
}

// A tab stop is 0 or 1, and so are `shifted` and `wish`. The personality is 50 or 60, and `remembered` the attribute that ESC G sets in the 60.
// `gathered` are the bytes of a text under way; the sequence says how many.
#[repr(C)]
#[derive(Clone, Copy)]
pub struct RawState {
    pub screen: RawScreen,
    pub modes: RawModes,
    pub bells: u16,
    pub personality: u8,
    pub remembered: u8,
    pub sequence: RawSequence,
    pub sending: RawSending,
    pub gathered: [u8; 46],
    pub tabs: [u8; 132],
    pub attributes: [u8; 4],
    pub features: [u8; 5],
    pub keys: [RawKey; 32],
    pub labels: [RawKey; 16],
    pub message: RawMessage,
    pub shifted: u16,
    pub wish: u16,
}

#[repr(C)]
#[derive(Clone, Copy)]
pub struct RawPowerOn {
    pub answer: u8,
    pub state: RawState,
}

#[repr(C)]
#[derive(Clone, Copy)]
pub struct RawStep {
    pub answer: u8,
    pub taken: u8,
    pub replied: usize,
    pub state: RawState,
}

#[repr(C)]
#[derive(Clone, Copy)]
pub struct RawRun {
    pub answer: u8,
    pub taken: usize,
    pub replied: usize,
    pub refused: usize,
    pub state: RawState,
}

// The command is 0 where there is no reply.
#[repr(C)]
#[derive(Clone, Copy)]
pub struct RawNext {
    pub answer: u8,
    pub command: u8,
    pub taken: usize,
    pub replied: usize,
    pub refused: usize,
    pub state: RawState,
}

#[repr(C)]
#[derive(Clone, Copy)]
pub struct RawPress {
    pub answer: u8,
    pub replied: usize,
}

#[repr(C)]
#[derive(Clone, Copy)]
pub struct RawSave {
    pub answer: u8,
    pub number: u16,
}

#[repr(C)]
#[derive(Clone, Copy)]
pub struct RawRestore {
    pub answer: u8,
    pub state: RawState,
}

#[repr(C)]
#[derive(Clone, Copy)]
pub struct RawConvert {
    pub answer: u8,
    pub state: RawState,
}
