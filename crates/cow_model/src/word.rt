/// The first word of a line that isn't skipped.
#[derive(Clone, Copy, Debug, PartialEq, Eq)]
pub enum Word {
    Statement(Form),
    Fork,
    Task,
    End,
}

/// The first word of a statement of one line, by what stands behind it.
#[derive(Clone, Copy, Debug, PartialEq, Eq)]
pub enum Form {
    Let,
    OnName(NameWord),
    OnAtom(AtomWord),
    OnPlace(PlaceWord),
    OnSide(SideWord),
    OnOther(OtherWord),
    Insert,
    Set,
    Replace,
    Swap,
    Splice,
    Put,
    Merge,
    Lazy,
    Give,
}

/// The words of the form `WORD NAME`.
#[derive(Clone, Copy, Debug, PartialEq, Eq)]
pub enum NameWord {
    Drop,
    Show,
    Count,
    Reverse,
    Clear,
    Rebase,
}

/// The words of the form `WORD NAME ATOM`, but for `insert`, which has two forms.
#[derive(Clone, Copy, Debug, PartialEq, Eq)]
pub enum AtomWord {
    Append,
    Prepend,
    Update,
    Remove,
    Get,
    Has,
    Place,
}

/// The words of the form `WORD NAME I`.
#[derive(Clone, Copy, Debug, PartialEq, Eq)]
pub enum PlaceWord {
    RemoveAt,
    At,
    Rotate,
    Reserve,
}

/// The words of the form `WORD NAME END`.
#[derive(Clone, Copy, Debug, PartialEq, Eq)]
pub enum SideWord {
    Pop,
    Peek,
}

/// The words of the form `WORD NAME OTHER`.
#[derive(Clone, Copy, Debug, PartialEq, Eq)]
pub enum OtherWord {
    Extend,
    Union,
    Inter,
    Minus,
    SymDiff,
    Subset,
    Disjoint,
    Equal,
    Within,
}
