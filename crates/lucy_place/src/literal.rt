// The numbers that literals stand for.
ghost use Rattle.std.specs.Prelude.{◌≡◌};
ghost use Rattle.lucy_place.specs.Literals as spec;

use lucy_tree::Lit;

/// The number that a literal stands for in streams: an int itself, true 1 and false 0.
pub fn literal_value(lit: Lit) -> i64
    ensures { result ≡ spec.literal_value lit }
{
    match lit {
        Lit::Int(n) => n,
        Lit::Bool(true) => 1,
        Lit::Bool(false) => 0,
    }
}
