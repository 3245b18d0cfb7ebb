/// The type of a place: int or bool where nothing else fits, else open. Open places of one node that are of one type
/// whichever it is have one class, and classes count from 1 in order of their first place.
#[derive(Clone, Copy)]
pub enum Ty {
    Int,
    Bool,
    Open(u32),
}
