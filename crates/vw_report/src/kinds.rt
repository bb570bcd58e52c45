// The word that a value's text begins with.
#[derive(Clone, Copy)]
pub enum Kind {
    Any,
    Num,
    Const,
    Below,
    Low,
    Both,
    HeapBase,
    HeapAddr,
    Globals,
    Entry,
    Image,
    Index16,
    EntryPtr,
    EntryTyped,
    TagOf,
    TableFn,
    JumpOff,
    JumpDest,
}
