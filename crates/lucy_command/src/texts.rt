// The texts of the words of a command line.

/// The text of each option, and of each operand, where it stands.
#[derive(Clone, Copy)]
pub(crate) struct Texts<'a> {
    pub scale: Option<&'a str>,
    pub lead: Option<&'a str>,
    pub instants: Option<&'a str>,
    pub workers: Option<&'a str>,
    pub block: Option<&'a str>,
    pub first: Option<&'a str>,
    pub second: Option<&'a str>,
}
