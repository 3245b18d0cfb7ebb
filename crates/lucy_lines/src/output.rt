use lucy_host::DataType;
use lucy_text::Text;
use lucy_word::Word;

/// A result of a program: its name, the type of its values, and its word, which has a one at each instant with a value.
#[derive(Drop)]
pub struct OutputSpec {
    pub name: Text,
    pub holds: DataType,
    pub word: Word,
}
