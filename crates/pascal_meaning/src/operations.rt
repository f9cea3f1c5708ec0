//! What a function of the emitted program does for an operation that may fail, or for a predefined
//! call.

use typed_tree::{BinaryOp, DeclId, TypeId};

/// A checked operation or a predefined call, with the types, ranges and lengths on which its C
/// function depends. `perform` of `specs/Primitives` says what each does with its operands, which
/// stand beside it here. The dialect is that of the program's types.
///
/// `halt`, `escape` and the forms of `exit` are no primitives, since they are statements of every
/// language below; what they check is `Range`. `concat` reads each text by `TextRead`, and then joins
/// them by `Join`.
#[derive(Clone, Copy)]
pub enum Primitive {
    // Whole numbers: two of them, or one.
    Add,
    Subtract,
    Multiply,
    Divide,
    Modulo,
    Negate,
    BitAnd,
    BitOr,
    BitXor,
    BitNot,
    ShiftLeft,
    ShiftRight,
    /// An ordinal has to lie in the range: a store, or an index of an array.
    Range {
        first: i64,
        last: i64,
    },
    /// An index has to lie in a dynamic string: the string and the index.
    StringIndex {
        string: TypeId,
    },
    /// A pointer must not be `nil`.
    NotNil {
        pointer: TypeId,
    },
    /// No label of a `case` fits.
    NoCase,
    /// A tag has to select the innermost variant around a field of the record.
    Selected {
        record: TypeId,
        field: DeclId,
    },
    /// The length of a dynamic string, which has to lie within its limit.
    TextLength {
        string: TypeId,
    },
    /// A text is read up to its length, as by a call that will use it; without an answer.
    TextRead {
        text: TypeId,
    },
    // Sets: two of them.
    Union,
    Difference,
    Intersection,
    SetEqual,
    SetUnequal,
    Subset,
    Superset,
    /// An ordinal and a set.
    Member,
    /// A set that is made, and a member for it.
    Include,
    /// A set that is made, and the first and the last member of a range for it.
    IncludeRange,
    /// A set is stored: the target and the set.
    StoreSet {
        target: TypeId,
    },
    // Texts: two of them.
    Join {
        left: TypeId,
        right: TypeId,
    },
    /// The operator is a comparison.
    Compare {
        operator: BinaryOp,
        left: TypeId,
        right: TypeId,
    },
    /// A text becomes the value of a dynamic string.
    Convert {
        target: TypeId,
        text: TypeId,
    },
    /// A text is stored into a dynamic string: the target and the text.
    StoreText {
        target: TypeId,
        text: TypeId,
    },
    // The calls, with their operands in the order of the call.
    Abs,
    Sqr,
    Odd,
    Ord,
    Chr,
    Succ {
        ordinal: TypeId,
    },
    Pred {
        ordinal: TypeId,
    },
    New {
        pointer: TypeId,
    },
    Dispose {
        pointer: TypeId,
    },
    Pack {
        unpacked: TypeId,
        packed: TypeId,
    },
    Unpack {
        packed: TypeId,
        unpacked: TypeId,
    },
    Eof,
    Eoln,
    /// `input^`
    LookAhead,
    Get,
    Read {
        target: TypeId,
    },
    Readln,
    /// A value, and a width where one stands.
    Write {
        value: TypeId,
        wide: bool,
    },
    Writeln,
    Page,
    EscapeCode,
    Inc {
        target: TypeId,
    },
    Dec {
        target: TypeId,
    },
    UpCase,
    Length {
        text: TypeId,
    },
    Copy {
        text: TypeId,
    },
    Pos {
        part: TypeId,
        text: TypeId,
    },
    Insert {
        text: TypeId,
        target: TypeId,
    },
    Delete {
        target: TypeId,
    },
    /// Turbo's `str`: a number, a width where one stands, and the target.
    NumberText {
        number: TypeId,
        target: TypeId,
        wide: bool,
    },
    Val {
        text: TypeId,
        number: TypeId,
        code: TypeId,
    },
    StrLen {
        text: TypeId,
    },
    StrMax {
        string: TypeId,
    },
    /// HP's `str`: a text, a place and a number of bytes.
    TextPart {
        text: TypeId,
    },
    StrLTrim {
        text: TypeId,
    },
    StrRTrim {
        text: TypeId,
    },
    StrRpt {
        text: TypeId,
    },
    StrAppend {
        target: TypeId,
        text: TypeId,
    },
    SetStrLen {
        target: TypeId,
    },
}
