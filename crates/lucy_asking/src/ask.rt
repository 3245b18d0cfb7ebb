// What the words ask for.

/// A program, and how its clocks are found.
#[derive(Clone, Copy)]
pub struct FileWords<'a> {
    pub file: &'a str,
    /// From 1 to 64, like the lead.
    pub scale: u64,
    pub lead: u64,
}

/// What `time` works on.
#[derive(Clone, Copy)]
pub struct TimeWords<'a> {
    pub program: FileWords<'a>,
    /// The name of a node, or all of them.
    pub node: Option<&'a str>,
    /// The instants that are shown where they are given, from 1 to 65,536.
    pub instants: Option<u64>,
    /// Whether it is drawn as SVG.
    pub svg: bool,
}

/// What `net` works on.
#[derive(Clone, Copy)]
pub struct NetWords<'a> {
    pub program: FileWords<'a>,
    /// The name of a node, or main.
    pub node: Option<&'a str>,
    /// Whether calls are written out.
    pub flat: bool,
}

/// What `wave` works on.
#[derive(Clone, Copy)]
pub struct WaveWords<'a> {
    pub program: FileWords<'a>,
    /// The instants where they are given, up to 1,048,576.
    pub instants: Option<u64>,
}

/// What `page` works on.
#[derive(Clone, Copy)]
pub struct PageWords<'a> {
    pub program: FileWords<'a>,
    /// The instants that are shown where they are given, from 1 to 65,536.
    pub instants: Option<u64>,
}

/// What `where` looks for: an offset in bytes from 0, or a place by its number from 1.
#[derive(Clone, Copy)]
pub enum Sought {
    Offset(u64),
    Place(u32),
}

/// What `where` works on.
#[derive(Clone, Copy)]
pub struct WhereWords<'a> {
    pub file: &'a str,
    /// What is looked for, if the word says that.
    pub sought: Option<Sought>,
    /// The name of the place's node, or main.
    pub node: Option<&'a str>,
}

/// What `why` works on.
#[derive(Clone, Copy)]
pub struct WhyWords<'a> {
    pub program: FileWords<'a>,
    /// The name of a node and the number of one of its buffers from 1, if the word is such.
    pub buffer: Option<(&'a str, u32)>,
}

/// What is shown of a program that isn't run.
#[derive(Clone, Copy)]
pub enum Picture<'a> {
    Time(TimeWords<'a>),
    Net(NetWords<'a>),
    Where(WhereWords<'a>),
    Page(PageWords<'a>),
    Explain(FileWords<'a>),
    Why(WhyWords<'a>),
    Freeze(FileWords<'a>),
}

/// What the words ask for.
#[derive(Clone, Copy)]
pub enum Ask<'a> {
    Wave(WaveWords<'a>),
    Picture(Picture<'a>),
}
