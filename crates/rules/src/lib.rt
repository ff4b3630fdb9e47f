// The types of the alert terminal. The rules over them are the definitions in specs/; there is no executable code here but what a derive writes, so
// the types have no methods.
#![tactic(auto)]

// A wide page has 132 columns, another 80. The split row counts from 1, and 0 is none, as C has it and `split_ok` of the definitions. A cursor is a
// cell of the page, counted from 0, one for each segment.
#[derive(Clone, Copy)]
pub struct Screen {
    pub wide: bool,
    pub active: u8,
    pub split: u8,
    pub cursor0: u16,
    pub cursor1: u16,
}

// `local` is local edit.
#[derive(Clone, Copy)]
pub struct Modes {
    pub protect: bool,
    pub writeprotect: bool,
    pub insert: bool,
    pub autoscroll: bool,
    pub locked: bool,
    pub local: bool,
}

// A text: the first `len` of `bytes`, since nothing allocates. A key and a label have room for 8, the host message for 46.
#[derive(Clone, Copy)]
pub struct Text<const N: usize> {
    pub len: u8,
    pub bytes: [u8; N],
}

// Features: cursor shown, cursor style, protected look, screen shown, scrolling.
// Keys: 40h to 4Fh, then 60h to 6Fh. Labels: 30h to 37h, then 50h to 57h, the shifted line's; `shifted` says whether that line is on.
#[derive(Clone, Copy)]
pub struct Setup {
    pub tabs: [bool; 132],
    pub attributes: [u8; 4],
    pub features: [u8; 5],
    pub keys: [Text<8>; 32],
    pub labels: [Text<8>; 16],
    pub message: Text<46>,
    pub shifted: bool,
    // a wide page is wished for
    pub wish: bool,
}

// Where a text goes when it is complete: the key or the label of a value of ESC z, or the host message of ESC F.
#[derive(Clone, Copy)]
pub enum Slot {
    Key(u8),
    Label(u8),
    Message,
}

// An argument that is awaited, nothing but its command having come: after ESC =, ESC -, ESC x, ESC x 1, ESC G, ESC H, ESC !, ESC ., ESC `,
// ESC A, ESC z.
#[derive(Clone, Copy)]
pub enum Argument {
    Address,
    Segment,
    Split,
    SplitRow,
    Attribute,
    Graphic,
    FillAttribute,
    FillCode,
    Feature,
    FieldAttribute,
    Slot,
}

// The sequence under way: which bytes have come since ESC.
#[derive(Clone, Copy)]
pub enum Pending {
    Idle,
    Escape,
    Awaits(Argument),
    // ESC = and its row code
    AddressRow(u8),
    // ESC - and its segment code; and its row code
    SegmentNumber(u8),
    SegmentRow(u8, u8),
    // ESC a: digits so far and the number that they make; after R also the row
    DecimalRow(u8, u8),
    DecimalColumn(u8, u8, u16),
    // ESC A and its field
    FieldNumber(u8),
    // ESC z value, ESC F: how many bytes of the text are gathered; or there were too many, or a bad one
    Text(Slot, u8),
    Spoilt(Slot),
}

// Whose rules the terminal follows, by its number: chosen at power-on, changed by no byte.
#[derive(Clone, Copy, PartialEq, Eq)]
pub enum Personality {
    Wy50 = 50,
    Wy60 = 60,
}

// What the bytes of the host change most. `attribute` is the one that ESC G sets in WY-60, remembered for the cells stored later: dim 16,
// underscore 8, reverse 4, blink 2, blank 1.
#[derive(Clone, Copy)]
pub struct Core {
    pub screen: Screen,
    pub modes: Modes,
    pub bells: u8,
    pub pending: Pending,
    pub personality: Personality,
    pub attribute: u8,
}

// The replies of a few bytes: 05h, ESC M, ESC SPACE, ESC ?, ESC /, ESC b.
#[derive(Clone, Copy)]
pub enum Short {
    Acknowledge,
    Cell,
    Identity,
    Cursor,
    SegmentCursor,
    DecimalCursor,
}

// A place of a text that is sent: a cell, the US before a cell, the CR.
#[derive(Clone, Copy)]
pub enum Place {
    Cell(u16),
    Break(u16),
    Return,
}

// A reply, and the place from which it goes on: of a short one how many bytes went before. A text goes through the cursor:
//
//     command  all    segment  from the first cell of  sends
//     ESC 4    false  false    the cursor's row        the cells that are not protected, an FS for each stretch of the others
//     ESC 5    false  true     the segment             the same
//     ESC 6    true   false    the cursor's row        all cells
//     ESC 7    true   true     the segment             all cells
#[derive(Clone, Copy)]
pub enum Sending {
    Nothing,
    Short(Short, u8),
    Text { all: bool, segment: bool, at: Place },
}

// `gathered` holds the bytes of a text under way; `sending` is the send under way.
#[derive(Clone, Copy)]
pub struct State {
    pub core: Core,
    pub sending: Sending,
    pub gathered: [u8; 46],
    pub setup: Setup,
}

// What a call answers, by its number; 5 is unused.
#[derive(Clone, Copy, PartialEq, Eq)]
pub enum Answer {
    Done = 0,
    HighByte = 1,
    Unknown = 2,
    BadArgument = 3,
    Barred = 4,
    NoRoom = 6,
    BadCall = 7,
    Locked = 8,
}

// What a search looks for. FieldStart holds the first cell of the segment.
#[derive(Clone, Copy)]
pub enum Sought {
    Open,
    Guarded,
    FieldStart(usize),
}

// A cell's contents: its kind, and its code.
#[derive(Clone, Copy)]
pub enum Contents {
    Text(u8),
    Attribute(u8),
    Graphic(u8),
}

// The commands, by what they touch.

#[derive(Clone, Copy)]
pub enum Move {
    Back,
    Right,
    Return,
    Home,
    Up,
    Reverse,
    Down,
    NextLine,
    Tab,
    BackTab,
    // codes from 20h
    Address(u8, u8),
    // numbers from 1
    Decimal(u8, u16),
}

#[derive(Clone, Copy)]
pub enum Window {
    Unsplit,
    Split(u8),
    Other,
    First,
    Second,
    // segment, row and column codes
    Place(u8, u8, u8),
}

#[derive(Clone, Copy)]
pub enum Edit {
    InsertCell,
    DeleteCell,
    InsertRow,
    DeleteRow,
}

// Open cells: from the cursor to the end of the row, or of the segment; the whole segment; the cursor's column.
#[derive(Clone, Copy)]
pub enum Clear {
    Row(Contents),
    Rest(Contents),
    Segment(Contents),
    Column,
}

#[derive(Clone, Copy)]
pub enum Mode {
    WriteProtect,
    Insert,
    Autoscroll,
    Lock,
    LocalEdit,
}

#[derive(Clone, Copy)]
pub enum Setting {
    Tab(bool),
    ClearTabs,
    // field, attribute
    Attribute(u8, u8),
    Feature(u8),
    // the shifted line off
    HideLine,
    // the wish for a wide page
    Wish(bool),
}

#[derive(Clone, Copy)]
pub enum Send {
    Acknowledge,
    Identity,
    Cursor,
    SegmentCursor,
    DecimalCursor,
    Cell,
    OpenRow,
    OpenSegment,
}

// The six commands that demand 3 leaves out.
#[derive(Clone, Copy)]
pub enum Excluded {
    ProtectOff,
    ClearNulls,
    ClearSpaces,
    ClearProtected,
    SendRow,
    SendSegment,
}

#[derive(Clone, Copy)]
pub enum Command {
    Nothing,
    Go(Move),
    Window(Window),
    // with the remembered attribute
    Store(Contents),
    // ESC G and its code
    Attribute(u8),
    Edit(Edit),
    Clear(Clear),
    Turn(Mode, bool),
    ProtectOn,
    Bell,
    Set(Setting),
    Send(Send),
    Excluded(Excluded),
}

// What a byte comes to after the sequence under way: more is awaited; the byte of a text, to be gathered at a place; a text of so many bytes is
// complete; a refusal; or a command.
#[derive(Clone, Copy)]
pub enum Decoded {
    Wait(Pending),
    Gather(Slot, u8, u8),
    Take(Slot, u8),
    Reject(Answer),
    Do(Command),
}

// What is written to the page. Cells and rows count from 0; `to` and `bottom` are not included.
#[derive(Clone, Copy)]
pub enum Write {
    Nothing,
    // the open cells, or all cells
    Fill {
        from: u16,
        to: u16,
        value: u16,
    },
    FillAll {
        from: u16,
        to: u16,
        value: u16,
    },
    Column {
        top: u16,
        bottom: u16,
        column: u16,
        value: u16,
    },
    // the edit run at a cell moves by one cell
    Edit {
        right: bool,
        at: u16,
        value: u16,
    },
    // rows move by one row
    Rows {
        down: bool,
        top: u16,
        bottom: u16,
    },
}

// What a command changes in the set-up.
#[derive(Clone, Copy)]
pub enum SetupChange {
    Nothing,
    Tab(u16, bool),
    ClearTabs,
    Attribute(u8, u8),
    Feature(u8, u8),
    HideLine,
    Wish(bool),
}

// What a byte changes beside the core: a byte of a text is gathered at a place, a slot takes the first so many bytes gathered, a command's change
// of the set-up, or a reply that was due has begun, and this is left of it.
#[derive(Clone, Copy)]
pub enum Change {
    Gather(u8, u8),
    Take(Slot, u8),
    Set(SetupChange),
    Send(Sending),
}

// Where the active cursor goes at the end, over the page as it then is.
#[derive(Clone, Copy)]
pub enum Land {
    Stay,
    Settle(u16),
}

#[derive(Clone, Copy)]
pub struct Plan {
    pub answer: Answer,
    pub first: Write,
    pub second: Write,
    pub change: SetupChange,
    // from its first place; a plan with a reply asks for nothing else
    pub reply: Sending,
    pub next: Core,
    pub land: Land,
}

// What calls give. The definitions (`Outcome`, `Ran`) give a state, a page and counts on refusals too: so these are no Result.

// What one byte gives: the set-up is not handed through, only its change.
#[derive(Clone, Copy)]
pub struct CoreResult {
    pub answer: Answer,
    pub replied: usize,
    pub core: Core,
    pub change: Change,
}

#[derive(Clone, Copy)]
pub struct PowerOn {
    pub answer: Answer,
    pub state: State,
}

// `taken` says whether the step's own byte was taken.
#[derive(Clone, Copy)]
pub struct StepResult {
    pub answer: Answer,
    pub taken: bool,
    pub replied: usize,
    pub state: State,
}

#[derive(Clone, Copy)]
pub struct RunResult {
    pub answer: Answer,
    pub taken: usize,
    pub replied: usize,
    pub refused: usize,
    pub state: State,
}

// What is read of a page, as C holds it. A field: its first cell, how many cells it has, and the first one's row and column; 0 cells: there is none.
#[repr(C)]
#[derive(Clone, Copy)]
pub struct Field {
    pub start: usize,
    pub size: usize,
    pub row: usize,
    pub column: usize,
}

// A cell's row and column, from 0.
#[repr(C)]
#[derive(Clone, Copy)]
pub struct Position {
    pub answer: u8,
    pub row: usize,
    pub column: usize,
}

// The text of a field or a row: how many bytes were put at the front of the room.
#[repr(C)]
#[derive(Clone, Copy)]
pub struct TextResult {
    pub answer: u8,
    pub size: usize,
}
