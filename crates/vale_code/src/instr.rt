use crate::Sequence;
use vale_base::{Kind, Spot};

/// An instruction (docs/FORMATS.md, "Instructions"). `to` is the register that is written; it isn't where the result is
/// void. `func`, `field`, `method` and `text` are numbers, and `target` is a place in the function.
#[derive(Drop)]
pub enum Instr {
    /// A number.
    Int {
        to: u32,
        number: i64,
    },
    /// A truth: false for 0.
    Truth {
        to: u32,
        choice: u8,
    },
    /// A text of the code.
    Text {
        to: u32,
        text: u32,
    },
    /// Copies a copy value or a reference.
    Copy {
        to: u32,
        from: u32,
    },
    /// Moves an owner or an isolate.
    Move {
        to: u32,
        from: u32,
    },
    Add {
        to: u32,
        left: u32,
        right: u32,
        at: Spot,
    },
    Sub {
        to: u32,
        left: u32,
        right: u32,
        at: Spot,
    },
    Mul {
        to: u32,
        left: u32,
        right: u32,
        at: Spot,
    },
    Div {
        to: u32,
        left: u32,
        right: u32,
        at: Spot,
    },
    Rem {
        to: u32,
        left: u32,
        right: u32,
        at: Spot,
    },
    /// Compares, by the choice from 0: `==`, `!=`, `<`, `<=`, `>`, `>=`.
    Cmp {
        to: u32,
        choice: u8,
        left: u32,
        right: u32,
    },
    Not {
        to: u32,
        from: u32,
    },
    Join {
        to: u32,
        left: u32,
        right: u32,
        at: Spot,
    },
    TextLen {
        to: u32,
        from: u32,
    },
    Slice {
        to: u32,
        from: u32,
        first: u32,
        end: u32,
        at: Spot,
    },
    Byte {
        to: u32,
        from: u32,
        index: u32,
        at: Spot,
    },
    TextOf {
        to: u32,
        from: u32,
    },
    IsNum {
        to: u32,
        from: u32,
    },
    Num {
        to: u32,
        from: u32,
        at: Spot,
    },
    /// Prints a copy value; with a line feed where the choice is 1.
    Print {
        from: u32,
        choice: u8,
    },
    Jump {
        target: u32,
    },
    /// Jumps where the register is false.
    Unless {
        condition: u32,
        target: u32,
    },
    /// The tick of a loop's turn.
    Tick,
    Call {
        to: u32,
        func: u32,
        args: Sequence<u32>,
        at: Spot,
    },
    /// Calls a method of an interface by the kind of the object; checked.
    CallM {
        to: u32,
        interface: u32,
        method: u32,
        object: u32,
        args: Sequence<u32>,
        at: Spot,
    },
    /// The same, of an object that is known to be alive.
    CallMLive {
        to: u32,
        interface: u32,
        method: u32,
        object: u32,
        args: Sequence<u32>,
        at: Spot,
    },
    Ret {
        from: u32,
    },
    RetVoid,
    /// Makes a struct or an array object of the values.
    Make {
        to: u32,
        kind: Kind,
        args: Sequence<u32>,
    },
    /// A reference to an owner's object.
    Borrow {
        to: u32,
        from: u32,
    },
    /// A reference into frozen data.
    Frozen {
        to: u32,
        from: u32,
    },
    /// Reads a field of an owner's object.
    LoadOwn {
        to: u32,
        object: u32,
        field: u32,
    },
    /// Reads a field; checked.
    Load {
        to: u32,
        object: u32,
        field: u32,
        at: Spot,
    },
    /// Reads a field of an object that is known to be alive.
    LoadLive {
        to: u32,
        object: u32,
        field: u32,
    },
    /// Reads an element of an owner's object.
    ElemOwn {
        to: u32,
        object: u32,
        index: u32,
        at: Spot,
    },
    /// Reads an element; checked.
    Elem {
        to: u32,
        object: u32,
        index: u32,
        at: Spot,
    },
    /// Reads an element of an object that is known to be alive.
    ElemLive {
        to: u32,
        object: u32,
        index: u32,
        at: Spot,
    },
    /// An array's length; checked.
    Len {
        to: u32,
        object: u32,
        at: Spot,
    },
    /// The length of an array that is known to be alive.
    LenLive {
        to: u32,
        object: u32,
    },
    /// Sets a field of an owner's object, and gives what was there.
    SwapOwn {
        to: u32,
        object: u32,
        field: u32,
        value: u32,
    },
    /// Sets a field, and gives what was there; checked.
    Swap {
        to: u32,
        object: u32,
        field: u32,
        value: u32,
        at: Spot,
    },
    /// Sets an element of an owner's object, and gives what was there.
    SwapElOwn {
        to: u32,
        object: u32,
        index: u32,
        value: u32,
        at: Spot,
    },
    /// Sets an element, and gives what was there; checked.
    SwapEl {
        to: u32,
        object: u32,
        index: u32,
        value: u32,
        at: Spot,
    },
    /// Puts a value at an array's end; checked.
    Push {
        object: u32,
        value: u32,
        at: Spot,
    },
    /// Takes the value at an array's end; checked.
    Pop {
        to: u32,
        object: u32,
        at: Spot,
    },
    /// Takes an owner's object apart. The object dies.
    Open {
        to: Sequence<u32>,
        from: u32,
    },
    /// Drops an owner or an isolate.
    Destroy {
        from: u32,
        at: Spot,
    },
    /// Joins an isolate to the current region, and gives the owner of its root.
    Merge {
        to: u32,
        from: u32,
    },
    /// Opens a freeze.
    Freeze {
        at: Spot,
    },
    /// Ends a freeze; its objects join the region around.
    ThawMerge {
        to: u32,
        from: u32,
    },
    /// Ends a freeze; its objects become an isolate.
    ThawKeep {
        to: u32,
        from: u32,
    },
    /// Ends a freeze; its objects are removed.
    ThawClear,
    /// A parallel loop over the numbers from one bound up to the other.
    ParRange {
        to: u32,
        first: u32,
        end: u32,
        func: u32,
        args: Sequence<u32>,
        at: Spot,
    },
    /// A parallel loop over the isolates of an array.
    ParEach {
        to: u32,
        array: u32,
        func: u32,
        args: Sequence<u32>,
        at: Spot,
    },
    /// An owner or a reference of a struct as one of an interface.
    Upcast {
        to: u32,
        from: u32,
        kind: Kind,
    },
}
