// The numbers of the command line.
ghost use Rattle.std.specs.Prelude.{◌≡◌, ◌≤◌, IfSome};
ghost use Rattle.lucy_fields.specs.Numbers.{number_of};

/// The number that a text of one to seven digits spells, where it lies between these.
pub(crate) fn number(text: &str, least: u64, most: u64) -> Option<u64>
    ensures is { result ≡ number_of 7 least most text.now }
    ensures least { IfSome result (λ n. least ≤ n) }
    ensures most { IfSome result (λ n. n ≤ most) }
{
    lucy_fields::number(text.as_bytes(), 7, least, most)
}
