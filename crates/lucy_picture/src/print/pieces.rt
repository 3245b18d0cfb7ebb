// Pieces of text, put one behind another.
ghost use Rattle.std.specs.Prelude.{List, ℕ, ◌≡◌, ◌++◌, string_bytes, IfOk, OnOk};
ghost use Rattle.std.specs.Fmt.{decimal};
ghost use Rattle.lucy_word.specs.Spelling.{text_of};

use lucy_word::Word;
use std::alloc::{AllocError, Global};

/// Puts these bytes last.
pub(crate) fn put(out: &mut Vec<u8>, bytes: &[u8]) -> Result<(), AllocError>
    ensures { OnOk result (out.new.items ≡ out.old.items ++ bytes.now) }
{
    out.extend_from_slice(bytes)?;
    Ok(())
}

/// Puts these bytes last, and those behind them.
pub(crate) fn put_both(out: &mut Vec<u8>, bytes: &[u8], more: &[u8]) -> Result<(), AllocError>
    ensures { OnOk result (out.new.items ≡ out.old.items ++ (bytes.now ++ more.now)) }
{
    put(out, bytes)?;
    put(out, more)
}

/// Puts a text last that was made, where there was memory for it.
pub(crate) fn put_made(
    out: &mut Vec<u8>,
    made: Result<String, AllocError>,
) -> Result<(), AllocError>
    ensures { (text : List ℕ) → IfOk made (λ s. string_bytes s ≡ text) → OnOk result (out.new.items ≡ out.old.items ++ text) }
{
    put(out, made?.as_bytes())
}

/// Puts a number last.
pub(crate) fn put_number(alloc: Global, number: u64, out: &mut Vec<u8>) -> Result<(), AllocError>
    ensures { OnOk result (out.new.items ≡ out.old.items ++ decimal number) }
{
    put_made(out, format!(in alloc; "{number}"))
}

/// Puts a word last.
pub(crate) fn put_bits(alloc: Global, word: &Word, out: &mut Vec<u8>) -> Result<(), AllocError>
    ensures { OnOk result (out.new.items ≡ out.old.items ++ text_of word.now) }
{
    word.print(alloc, out)
}
