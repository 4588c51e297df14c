/// What a base is: which memories hold it, and when it is born and dies.
#[derive(Clone, Copy, Debug, PartialEq, Eq)]
pub enum BaseSort {
    Static,
    Local,
    Formal,
    /// A string literal.
    Text,
    Func,
    /// An object that stands for what a pointer of the outside points to.
    Context,
}
