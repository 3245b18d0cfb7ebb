// The fields of a text, and numbers in decimal digits.
ghost use Rattle.std.specs.Prelude.{◌≡◌, ◌∷◌, [], None, IfSome};
ghost use Rattle.lucy_fields.specs.Fields.{is_blank, fields};
ghost use Rattle.lucy_fields.specs.Numbers.{number_of, int_of};

use lucy_fields::Fields;

/// Pins `lucy_fields::is_blank`.
pub fn is_blank(byte: u8) -> bool
    ensures { result ≡ is_blank byte }
{
    lucy_fields::is_blank(byte)
}

/// Pins `lucy_fields::Fields::new`.
pub fn fields<'a>(text: &'a [u8]) -> Fields<'a>
    ensures { result ≡ fields text.now }
{
    Fields::new(text)
}

/// Pins `lucy_fields::Fields::next`.
pub fn next_field<'a>(fields: &mut Fields<'a>) -> Option<(u64, &'a [u8])>
    ensures some { IfSome result (λ f. fields.old ≡ (f.0, f.1.now) ∷ fields.new) }
    ensures none { result ≡ None → (fields.old ≡ []) × (fields.new ≡ []) }
{
    fields.next()
}

/// Pins `lucy_fields::number`.
pub fn number(bytes: &[u8], digits: usize, least: u64, most: u64) -> Option<u64>
    ensures { result ≡ number_of digits least most bytes.now }
{
    lucy_fields::number(bytes, digits, least, most)
}

/// Pins `lucy_fields::int`.
pub fn int(bytes: &[u8]) -> Option<i64>
    ensures { result ≡ int_of bytes.now }
{
    lucy_fields::int(bytes)
}
