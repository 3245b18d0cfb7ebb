use lucy_host::DataType;
use lucy_text::Text;

/// A stream that the input may feed: its name, and the type of its values. Of two streams of one name the first is fed.
#[derive(Drop)]
pub struct InputSpec {
    pub name: Text,
    pub holds: DataType,
}
